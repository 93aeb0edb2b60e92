use crate::{Failed, MemSink, MemSource, SinkStop, Source, SureSink, SureSource, write_all};
use std::test::Fail;

#[test]
fn a_sure_source_gives_its_bytes(rt: HostRuntime) -> Result<(), Fail> {
    let mut source = SureSource::new(b"abcde".to_vec(rt.alloc())?);
    let mut buf = [0u8; 3];
    assert_eq!(rt; source.read(&mut buf), Ok(3));
    assert_eq!(rt; buf.as_slice(), b"abc".as_slice());
    assert_eq!(rt; source.left(), b"de".as_slice());
    assert_eq!(rt; source.read(&mut buf), Ok(2));
    assert_eq!(rt; &buf[..2], b"de".as_slice());
    assert_eq!(rt; source.read(&mut buf), Ok(0));
    Ok(())
}

#[test]
fn a_source_fails_at_the_given_read_and_goes_on(rt: HostRuntime) -> Result<(), Fail> {
    for failing in 1..=5u32 {
        let fails = [failing].to_vec(rt.alloc())?;
        let mut source = MemSource::new(b"abcd".to_vec(rt.alloc())?, 1, fails);
        let mut read = Vec::new(rt.alloc());
        for call in 1..=6u32 {
            let mut buf = [0u8; 3];
            match source.read(&mut buf) {
                Ok(n) => read.extend_from_slice(&buf[..n])?,
                Err(Failed) => assert_eq!(rt; call, failing),
            }
            assert_eq!(rt; read.len() + source.left().len(), 4, "after read {call}");
        }
        assert_eq!(rt;
            read.as_slice(),
            b"abcd".as_slice(),
            "where read {failing} fails"
        );
    }
    Ok(())
}

#[test]
fn a_sink_fails_at_the_given_write_and_goes_on(rt: HostRuntime) -> Result<(), Fail> {
    let mut sink = MemSink::new(rt.alloc(), [2, 3].to_vec(rt.alloc())?);
    for (want, held) in [
        (Ok(()), b"ab".as_slice()),
        (Err(SinkStop::Failed), b"ab".as_slice()),
        (Err(SinkStop::Failed), b"ab".as_slice()),
        (Ok(()), b"abab".as_slice()),
    ] {
        assert_eq!(rt; write_all(&mut sink, b"ab"), want);
        assert_eq!(rt; sink.bytes(), held);
    }
    Ok(())
}

#[test]
fn a_sure_sink_takes_each_piece(rt: HostRuntime) -> Result<(), Fail> {
    let mut sink = SureSink::new(rt.alloc());
    for piece in [b"ab".as_slice(), b"".as_slice(), b"cde".as_slice()] {
        assert_eq!(rt; write_all(&mut sink, piece), Ok(()));
    }
    assert_eq!(rt; sink.bytes(), b"abcde".as_slice());
    Ok(())
}
