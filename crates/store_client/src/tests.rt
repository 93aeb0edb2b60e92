use crate::{Session, SessionFault, SessionState};
use std::alloc::Global;
use std::test::Fail;
use tcs_terms::{Decision, Name, Value};

fn name(alloc: Global, bytes: &[u8]) -> Result<Name, Fail> {
    Ok(Name::build(alloc, bytes)?)
}

fn value(alloc: Global, bytes: &[u8]) -> Result<Value, Fail> {
    Ok(Value::build(alloc, bytes)?)
}

#[test]
fn a_session_commits_what_it_was_given(rt: HostRuntime) -> Result<(), Fail> {
    let alloc = rt.alloc();
    let mut session = Session::begin(alloc);
    assert_eq!(rt; session.commit().map(|_| ()), Err(SessionFault::Empty));
    assert_eq!(rt;
        session.on_outcome(Decision::Commit),
        Err(SessionFault::NotWaiting)
    );
    for (read, version, want) in [
        (b"b".as_slice(), 7, Ok(())),
        (b"a".as_slice(), 3, Ok(())),
        (b"b".as_slice(), 8, Err(SessionFault::Twice)),
    ] {
        assert_eq!(rt;
            session.on_value(name(alloc, read)?, version, value(alloc, b"")?),
            want
        );
    }
    for (put, byte, want) in [
        (b"b".as_slice(), b"1".as_slice(), Ok(())),
        (b"c".as_slice(), b"2".as_slice(), Err(SessionFault::Unread)),
        (b"b".as_slice(), b"3".as_slice(), Ok(())),
    ] {
        assert_eq!(rt; session.put(name(alloc, put)?, value(alloc, byte)?), want);
    }
    let payload = session.commit()?;
    assert_eq!(rt; payload.version(), 8);
    for (read, (bytes, version)) in payload
        .reads()
        .iter()
        .zip([(b"a".as_slice(), 3), (b"b".as_slice(), 7)])
    {
        assert_eq!(rt; (read.name.bytes(), read.version), (bytes, version));
    }
    assert_eq!(rt; (payload.reads().len(), payload.writes().len()), (2, 1));
    assert_eq!(rt; payload.writes()[0].value.bytes(), b"3".as_slice());
    assert_eq!(rt; session.state(), SessionState::Waiting);
    assert_eq!(rt; session.commit().map(|_| ()), Err(SessionFault::NotActive));
    assert_eq!(rt; session.on_outcome(Decision::Commit), Ok(()));
    assert_eq!(rt; session.state(), SessionState::Ended);
    assert_eq!(rt; session.outcome(), Some(Decision::Commit));
    Ok(())
}

#[test]
fn a_session_has_its_limits(rt: HostRuntime) -> Result<(), Fail> {
    let alloc = rt.alloc();
    let mut session = Session::begin(alloc);
    for letter in b'a'..b'q' {
        assert_eq!(rt;
            session.on_value(name(alloc, &[letter])?, u64::MAX, value(alloc, b"")?),
            Ok(())
        );
    }
    for (read, want) in [
        (b"a".as_slice(), SessionFault::Twice),
        (b"z".as_slice(), SessionFault::TooMany),
    ] {
        assert_eq!(rt;
            session.on_value(name(alloc, read)?, 1, value(alloc, b"")?),
            Err(want)
        );
    }
    assert_eq!(rt;
        session.commit().map(|_| ()),
        Err(SessionFault::VersionSpent)
    );
    assert_eq!(rt; session.state(), SessionState::Active);
    Ok(())
}
