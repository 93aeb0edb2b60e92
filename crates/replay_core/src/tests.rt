use crate::{ReplayStop, replay};
use std::alloc::Global;
use std::process::Abort;
use std::test::Fail;
use tcs_io::{MemSink, MemSource};
use text_words::Reason;

/// The worked run of one transaction that commits.
const ONE_COMMIT: &str = concat!(
    "tcs 1\n",
    "certifier serial\n",
    "shards 1\n",
    "node 1 1\n",
    "config 1 1 1\n",
    "events\n",
    "certify 1 v 1 r a 0 w a 05\n",
    "deliver 1\n",
    "deliver 2\n",
    "end\n",
);

const ONE_COMMIT_TRACE: &str = concat!(
    "trace 1 serial 1\n",
    "e 1 acted\n",
    "begin 1.1 v 1 r a 0 w a 05\n",
    "m 1 1 1 PREPARE 01000000010100000001010101000000000000000101016100000000000000000101610105\n",
    "e 2 acted\n",
    "m 2 1 1 PREPARE_ACK 02010000000100010100000001010100000000000000000101016100000000000000000101610105\n",
    "e 3 acted\n",
    "decide 1.1 commit\n",
    "m 3 1 1 DECISION 05000000010001010000000101\n",
    "m 4 1 1 OUTCOME 0f010000000100\n",
    "order 1.1\n",
    "end 3 4\n",
);

/// The fifth line repeats a node.
const NODE_AGAIN: &str = concat!(
    "tcs 1\n",
    "certifier serial\n",
    "shards 1\n",
    "node 1 1\n",
    "node 1 1\n",
    "events\n",
    "certify 1 v 1 r a 0 w a 05\n",
    "deliver 1\n",
    "deliver 2\n",
    "end\n",
);

/// How a replay ended, what it wrote, and how many bytes it left.
#[derive(Drop)]
struct Outcome {
    answer: Result<(), ReplayStop>,
    written: Vec<u8>,
    left: usize,
}

/// Replays a text of which a read gives at most so many bytes.
fn replayed(alloc: Global, text: &str, most: usize, writes: &[u32]) -> Result<Outcome, Fail> {
    let bytes = text.as_bytes().to_vec(alloc)?;
    let mut input = MemSource::new(bytes, most.max(1), Vec::new(alloc));
    let mut output = MemSink::new(alloc, writes.to_vec(alloc)?);
    let answer = replay(alloc, &mut input, &mut output);
    Ok(Outcome {
        answer,
        written: output.bytes().to_vec(alloc)?,
        left: input.left().len(),
    })
}

#[test]
fn a_run_is_written_whatever_the_pieces(rt: HostRuntime) -> Result<(), Fail> {
    for most in [1, 7, 4096] {
        let done = replayed(rt.alloc(), ONE_COMMIT, most, &[])?;
        assert!(rt; done.answer == Ok(()));
        assert!(rt; done.written.as_slice() == ONE_COMMIT_TRACE.as_bytes());
        assert!(rt; done.left == 0);
    }
    Ok(())
}

#[test]
fn nothing_is_read_behind_a_bad_line(rt: HostRuntime) -> Result<(), Fail> {
    let done = replayed(rt.alloc(), NODE_AGAIN, 1, &[])?;
    assert!(rt;
        done.answer
            == Err(ReplayStop::Bad {
                line: 5,
                reason: Reason::Order
            })
    );
    assert!(rt; done.written.is_empty());
    assert!(rt; done.left == 58);
    Ok(())
}

#[test]
fn a_failed_write_is_told(rt: HostRuntime) -> Result<(), Fail> {
    let done = replayed(rt.alloc(), ONE_COMMIT, 4096, &[1])?;
    assert!(rt; done.answer == Err(ReplayStop::WriteFault));
    assert!(rt; done.written.is_empty());
    Ok(())
}
