use crate::{Alien, Bytes, Fate, Link, LinkStop, MemLink, Polled};
use std::test::Fail;

#[test]
fn frames_meet_their_fates(rt: HostRuntime) -> Result<(), Fail> {
    let alloc = rt.alloc();
    let fates = [Fate::Keep, Fate::Twice, Fate::Lose, Fate::Fail].to_vec(alloc)?;
    let mut aliens = Vec::new(alloc);
    aliens.push(Alien {
        from: 9,
        to: 1,
        bytes: Bytes::build(b"\x00".to_vec(alloc)?),
    })?;
    let mut link = MemLink::new(alloc, fates, aliens, [2].to_vec(alloc)?);
    assert_eq!(rt; link.attach(&[0, 1, 2], 47000), Ok(()));
    for (from, to, frame, want) in [
        (0, 1, b"ab".as_slice(), Ok(())),
        (1, 2, b"cde".as_slice(), Ok(())),
        (2, 1, b"f".as_slice(), Ok(())),
        (1, 2, b"g".as_slice(), Err(LinkStop::Failed)),
        (0, 1, b"hi".as_slice(), Ok(())),
    ] {
        assert_eq!(rt; link.send(from, to, frame), want);
    }
    let mut buf = [0u8; 2];
    for (node, want, bytes) in [
        (1, Ok(Polled::Frame { from: 9, len: 1 }), b"\x00".as_slice()),
        (1, Err(LinkStop::Failed), b"".as_slice()),
        (1, Ok(Polled::Frame { from: 0, len: 2 }), b"ab".as_slice()),
        (2, Ok(Polled::Frame { from: 1, len: 2 }), b"cd".as_slice()),
        (2, Ok(Polled::Frame { from: 1, len: 2 }), b"cd".as_slice()),
        (2, Ok(Polled::Nothing), b"".as_slice()),
        (1, Ok(Polled::Frame { from: 0, len: 2 }), b"hi".as_slice()),
        (200, Ok(Polled::Nothing), b"".as_slice()),
    ] {
        assert_eq!(rt; link.poll(node, &mut buf), want);
        assert_eq!(rt; &buf[..bytes.len()], bytes);
    }
    assert_eq!(rt; (link.faults(), link.failed_sends()), (1, 1));
    assert_eq!(rt; (link.sent().len(), link.polls().len()), (5, 7));
    Ok(())
}

#[test]
fn attach_fails_where_it_is_told_to(rt: HostRuntime) -> Result<(), Fail> {
    let alloc = rt.alloc();
    for (fails, want, faults, port) in [
        (0u32, Err(LinkStop::Failed), 1, None),
        (1, Ok(()), 0, Some(1024)),
    ] {
        let fails = [fails].to_vec(alloc)?;
        let mut link = MemLink::new(alloc, Vec::new(alloc), Vec::new(alloc), fails);
        assert_eq!(rt; link.attach(&[3, 5], 1024), want);
        assert_eq!(rt; link.faults(), faults);
        assert_eq!(rt; link.attached().map(|attached| attached.port()), port);
    }
    Ok(())
}
