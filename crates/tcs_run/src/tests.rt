use crate::{Status, after_flush, run};
use std::alloc::AllocError;
use std::io::{self, Write};
use std::test::Fail;
use tcs_io::{MemSink, MemSource, StdSink, write_all};
use text_words::Reason;

/// Each status but a bad line, its exit number, and its text.
const STATUSES: [(Status, u8, &str); 9] = [
    (Status::Ok, 0, "ok"),
    (Status::BadWords, 2, "bad words"),
    (Status::ReadFault, 4, "read fault"),
    (Status::WriteFault, 5, "write fault"),
    (Status::OutOfMemory, 6, "out of memory"),
    (Status::Full(268_435_457), 7, "full: 268435457 bytes"),
    (Status::BadQuorum(7), 3, "bad quorum line 7"),
    (Status::BadTrace(21), 3, "bad trace line 21"),
    (Status::Incorrect, 1, "incorrect"),
];

/// Bad lines, for each reason, and their texts.
const BAD_LINES: [(u32, Reason, &str); 11] = [
    (11, Reason::Extra, "bad line 11: extra"),
    (10, Reason::Missing, "bad line 10: missing"),
    (7, Reason::Long, "bad line 7: long"),
    (7, Reason::Many, "bad line 7: many"),
    (1, Reason::Word, "bad line 1: word"),
    (2, Reason::Number, "bad line 2: number"),
    (7, Reason::Range, "bad line 7: range"),
    (5, Reason::Order, "bad line 5: order"),
    (8, Reason::Version, "bad line 8: version"),
    (7, Reason::Unread, "bad line 7: unread"),
    (4_294_967_295, Reason::Word, "bad line 4294967295: word"),
];

#[test]
fn each_status_has_its_number_and_text(rt: HostRuntime) -> Result<(), Fail> {
    for (status, code, text) in STATUSES {
        assert_eq!(rt; status.code(), code, "{text}");
        assert_eq!(rt; format!(in rt.alloc(); "{status}")?.as_str(), text);
    }
    for (line, reason, text) in BAD_LINES {
        let status = Status::Bad { line, reason };
        assert_eq!(rt; status.code(), 3, "{text}");
        assert_eq!(rt; format!(in rt.alloc(); "{status}")?.as_str(), text);
    }
    Ok(())
}

#[test]
fn other_words_are_bad(rt: HostRuntime) -> Result<(), Fail> {
    for list in [
        &[][..],
        &["Replay"],
        &["replay "],
        &["replay", "replay"],
        &["audits"],
        &["quorum", "replay"],
        &[""],
    ] {
        let mut words = Vec::new(rt.alloc());
        for word in list {
            words
                .push(String::from_str(rt.alloc(), word)?)
                .map_err(|_| AllocError)?;
        }
        let schedule = b"tcs 1\n".to_vec(rt.alloc())?;
        let mut input = MemSource::new(schedule, 7, Vec::new(rt.alloc()));
        let mut output = MemSink::new(rt.alloc(), Vec::new(rt.alloc()));
        let status = run(rt.alloc(), &words, &mut input, &mut output);
        assert_eq!(rt; status, Status::BadWords);
        assert_eq!(rt; input.left().len(), 6);
        assert!(rt; output.bytes().is_empty());
    }
    Ok(())
}

/// Takes no byte.
#[derive(Drop)]
struct Closed;

impl Write for Closed {
    fn write(&mut self, _buf: &[u8]) -> io::Result<usize> {
        Ok(0)
    }

    fn flush(&mut self) -> io::Result<()> {
        Ok(())
    }
}

#[test]
fn a_failed_flush_is_a_write_fault(rt: HostRuntime) -> Result<(), Fail> {
    for (status, _, _) in STATUSES {
        let told = match status {
            Status::BadWords => status,
            _ => Status::WriteFault,
        };
        let mut closed = StdSink::new(rt.alloc(), Closed)?;
        assert_eq!(rt; write_all(&mut closed, b"trace"), Ok(()));
        assert_eq!(rt; after_flush(status, &mut closed), told);
        let mut open = StdSink::new(rt.alloc(), Vec::new(rt.alloc()))?;
        assert_eq!(rt; write_all(&mut open, b"trace"), Ok(()));
        assert_eq!(rt; after_flush(status, &mut open), status);
    }
    Ok(())
}
