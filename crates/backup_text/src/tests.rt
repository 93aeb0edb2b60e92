use crate::{BackupReader, print_call, print_end, print_head, print_object, print_place};
use backup_machine::Kept;
use std::alloc::Global;
use std::test::Fail;
use tcs_terms::{Name, TxId, Value};

/// A reader behind these lines.
fn behind(alloc: Global, lines: &[&[u8]]) -> Result<BackupReader, Fail> {
    let mut reader = BackupReader::new();
    for line in lines {
        reader.take(alloc, line)?;
    }
    Ok(reader)
}

#[test]
fn a_line_is_taken_where_it_may_stand(rt: HostRuntime) -> Result<(), Fail> {
    let head = b"backup 1 a c".as_slice();
    let call = b"did read 1 a".as_slice();
    let place = b"cut 1.3".as_slice();
    let first = b"obj a 1 05".as_slice();
    let second = b"obj b 1 06".as_slice();
    let begun = [head, call];
    let placed = [head, call, place];
    let whole = [head, call, place, first, second];
    let dashed = [head, call, b"cut -".as_slice()];
    for (before, line, stands) in [
        ([].as_slice(), head, true),
        ([].as_slice(), b"backup 1 c a".as_slice(), false),
        ([].as_slice(), b"backup 2 a c".as_slice(), false),
        (begun.as_slice(), b"did ".as_slice(), false),
        (begun.as_slice(), b"obj b 0 06".as_slice(), false),
        (begun.as_slice(), b"cut 65.1".as_slice(), false),
        (placed.as_slice(), call, false),
        (placed.as_slice(), second, true),
        (placed.as_slice(), b"obj b 0 06".as_slice(), false),
        (placed.as_slice(), b"obj c 1 -".as_slice(), false),
        (placed.as_slice(), b"end 1".as_slice(), false),
        (whole.as_slice(), second, false),
        (whole.as_slice(), b"end 2".as_slice(), true),
        (dashed.as_slice(), first, false),
        (dashed.as_slice(), b"end 0".as_slice(), true),
    ] {
        let mut reader = behind(rt.alloc(), before)?;
        assert_eq!(rt; reader.take(rt.alloc(), line).is_ok(), stands);
    }
    Ok(())
}

#[test]
fn lines_are_printed(rt: HostRuntime) -> Result<(), Fail> {
    let alloc = rt.alloc();
    let mut out = Vec::new(alloc);
    print_head(
        &Name::build(alloc, b"a")?,
        &Name::build(alloc, b"c")?,
        &mut out,
    )?;
    print_call(b"read 1 a", &mut out)?;
    print_place(Some(TxId { home: 1, seq: 3 }), &mut out)?;
    let object = Kept {
        name: Name::build(alloc, b"a")?,
        version: 1,
        value: Value::build(alloc, &[5])?,
    };
    print_object(&object, &mut out)?;
    print_end(1, &mut out)?;
    print_place(None, &mut out)?;
    assert_eq!(rt;
        out.as_slice(),
        b"backup 1 a c\ndid read 1 a\ncut 1.3\nobj a 1 05\nend 1\ncut -\n".as_slice()
    );
    Ok(())
}
