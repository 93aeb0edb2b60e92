//! Schedules that are read, and printed again.

use crate::tests::support::{joined, source_of};
use schedule_text::{Got, LineItem, LineReader, Lines, has_line, print_event, print_setup};
use std::alloc::Global;
use std::process::Abort;
use std::test::Fail;

/// Each kind of line once.
const EVERY_LINE: &str =
    "tcs 2\ncertifier snapshot\nshards 2\nnode 1 1\nnode 2 2\nnode 3 1\nconfig 1 3 1 3\nconfig 2 2 2\nevents\n\
certify 1 v 3 r a 0 r b_9 2 q a c 0 q c d 1 w a - w b_9 00ff\n\
certify 3 v 18446744073709551615 q a c 0\n\
deliver 4294967295\ntake 3 2.1000000\nnudge 1\nmove 2 1 1 3\nmove 1 2\nlower 2\nread 2 n_x\nask 1 2\nstop 3\nend\n";

/// What is printed of what is read of a text.
fn printed(rt: &impl Abort, alloc: Global, text: &[u8], most: usize) -> Result<Vec<u8>, Fail> {
    let mut source = source_of(alloc, text, most, &[])?;
    let mut lines = Lines::begin(alloc)?;
    let mut reader = LineReader::new(alloc);
    let mut line = Vec::new(alloc);
    let mut out = Vec::new(alloc);
    for _ in 0..100 {
        let got = lines.next_line(&mut source, &mut line)?;
        match reader.take(got, &line)? {
            LineItem::Header => {}
            LineItem::Begun(setup) => print_setup(&setup, &mut out)?,
            LineItem::Event(event) => {
                assert!(rt; has_line(&event));
                print_event(&event, &mut out)?;
            }
            LineItem::End => {
                if got == Got::Nothing {
                    return Ok(out);
                }
                out.extend_from_slice(b"end\n")?;
            }
        }
    }
    Ok(out)
}

#[test]
fn what_is_read_is_printed_again(rt: HostRuntime) -> Result<(), Fail> {
    for most in [1, 7, 4096] {
        let out = printed(&rt, rt.alloc(), EVERY_LINE.as_bytes(), most)?;
        assert_eq!(rt;
            out.as_slice(),
            EVERY_LINE.as_bytes(),
            "in pieces of {most}"
        );
    }
    Ok(())
}

fn expect_rule(rt: &impl Abort, alloc: Global, rule: &str) -> Result<(), Fail> {
    let text = joined(
        alloc,
        &[
            "tcs 1\ncertifier ",
            rule,
            "\nshards 1\nnode 1 1\nconfig 1 1 1\nevents\nend\n",
        ],
    )?;
    let out = printed(rt, alloc, &text, 4096)?;
    assert_eq!(rt; out.as_slice(), text.as_slice());
    Ok(())
}

#[test]
fn every_rule_is_read(rt: HostRuntime) -> Result<(), Fail> {
    expect_rule(&rt, rt.alloc(), "serial")?;
    expect_rule(&rt, rt.alloc(), "snapshot")?;
    expect_rule(&rt, rt.alloc(), "commute")
}
