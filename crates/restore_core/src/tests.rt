//! Worked files, and what is written of each.
use crate::restore;
use std::alloc::Global;
use std::test::Fail;
use tcs_io::{MemSink, MemSource};

const HEADER: &str = "tcs 2\ncertifier serial\nshards 1\nnode 1 1\nconfig 1 1 1\nevents\n";

/// A backup of two objects.
const OF_TWO: &str = concat!(
    "backup 1 a c\n",
    "did read 1 a\n",
    "did read 1 b\n",
    "did certify 1 v 2 r a 1 r b 1 q a c 0\n",
    "cut 1.3\n",
    "obj a 1 05\n",
    "obj b 1 06\n",
);

/// The events that put them back.
const TWO_BACK: &str = concat!(
    "certify 1 v 1 r a 0 w a 05\n",
    "deliver 1\n",
    "deliver 2\n",
    "certify 1 v 1 r b 0 w b 06\n",
    "deliver 5\n",
    "deliver 6\n",
);

/// A backup whose one call aborts.
const ABORTED: &str = "backup 1 a c\ndid certify 1 v 1 q a c 0\ncut -\n";

/// What is written of a file, behind the header of the schedule, or else why nothing is.
fn told(alloc: Global, file: &str) -> Result<String, Fail> {
    let mut input = MemSource::new(file.as_bytes().to_vec(alloc)?, 100, Vec::new(alloc));
    let mut output = MemSink::new(alloc, Vec::new(alloc));
    match restore(alloc, &mut input, &mut output) {
        Ok(()) => {
            let text = String::from_utf8(output.bytes().to_vec(alloc)?)?;
            Ok(String::from_str(alloc, text.strip_prefix(HEADER).unwrap_or("?"))?)
        }
        Err(stop) if output.bytes().is_empty() => Ok(format!(in alloc; "{stop}")?),
        Err(_) => Ok(String::from_str(alloc, "?")?),
    }
}

#[test]
fn worked_files_are_restored(rt: HostRuntime) -> Result<(), Fail> {
    let alloc = rt.alloc();
    let two = format!(in alloc; "{OF_TWO}end 2\n")?;
    let two_back = format!(in alloc; "{TWO_BACK}end\n")?;
    let aborted = format!(in alloc; "{ABORTED}end 0\n")?;
    let cut_off = format!(in alloc; "{OF_TWO}end 2")?;
    let more = format!(in alloc; "{OF_TWO}end 2\n ")?;
    let fewer = format!(in alloc; "{OF_TWO}end 1\n")?;
    for (file, wanted) in [
        (two.as_str(), two_back.as_str()),
        (aborted.as_str(), "end\n"),
        ("backup 1 a c\nobj b 0 06\nend 1\n", "bad backup line 2"),
        (
            "backup 1 a c\ncut 1.3\nobj b 0 06\nend 1\n",
            "bad backup line 3",
        ),
        ("", "bad backup line 1"),
        (cut_off.as_str(), "bad backup line 8"),
        (more.as_str(), "bad backup line 9"),
        (fewer.as_str(), "bad backup line 8"),
    ] {
        assert_eq!(rt; told(alloc, file)?.as_str(), wanted, "{file}");
    }
    Ok(())
}

#[test]
fn a_line_may_be_longer_than_that_of_a_schedule(rt: HostRuntime) -> Result<(), Fail> {
    let alloc = rt.alloc();
    for (bytes, wanted) in [
        (4096, "end\n"),
        (4097, "bad backup line 2"),
        (9000, "bad backup line 2"),
    ] {
        let mut call = String::new(alloc);
        for _ in 0..bytes {
            call.push('x')?;
        }
        let file = format!(in alloc; "backup 1 a c\ndid {call}\ncut -\nend 0\n")?;
        assert_eq!(rt; told(alloc, file.as_str())?.as_str(), wanted, "{bytes}");
    }
    Ok(())
}
