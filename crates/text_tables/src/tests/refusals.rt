//! Bad lines, each with its reason.

use crate::tests::support::{Outcome, expect_bad, expect_refused, joined, read_text};
use std::alloc::Global;
use std::process::Abort;
use std::test::Fail;
use text_words::Reason;

/// One node; six lines.
const ONE: &str = "tcs 1\ncertifier serial\nshards 1\nnode 1 1\nconfig 1 1 1\nevents\n";
/// Two shards of two nodes, and range reads; ten lines.
const TWO: &str =
    "tcs 2\ncertifier serial\nshards 2\nnode 1 1\nnode 2 1\nnode 3 2\nnode 4 2\nconfig 1 1 1 2\nconfig 2 3 3\nevents\n";
/// Eight nodes of one shard; eleven lines.
const EIGHT: &str =
    "tcs 1\ncertifier serial\nshards 1\nnode 1 1\nnode 2 1\nnode 3 1\nnode 4 1\nnode 5 1\nnode 6 1\nnode 7 1\nnode 8 1\n";
/// The three lines before the nodes.
const THREE: &str = "tcs 1\ncertifier serial\nshards 2\n";
/// Eight nodes of one shard; thirteen lines.
const EIGHT_BEGUN: &str =
    "tcs 1\ncertifier serial\nshards 1\nnode 1 1\nnode 2 1\nnode 3 1\nnode 4 1\nnode 5 1\nnode 6 1\nnode 7 1\nnode 8 1\nconfig 1 1 1\nevents\n";
/// Three nodes and one configuration; seven lines.
const ONE_CONFIG: &str =
    "tcs 1\ncertifier serial\nshards 2\nnode 1 1\nnode 2 1\nnode 3 2\nconfig 1 1 1\n";
/// Three nodes and both configurations; eight lines.
const BOTH_CONFIGS: &str =
    "tcs 1\ncertifier serial\nshards 2\nnode 1 1\nnode 2 1\nnode 3 2\nconfig 1 1 1\nconfig 2 3 3\n";
/// Three nodes; six lines.
const NODES: &str = "tcs 1\ncertifier serial\nshards 2\nnode 1 1\nnode 2 1\nnode 3 2\n";

const FIRST_LINES: [(&str, u32, Reason); 17] = [
    ("tcs 3\n", 1, Reason::Range),
    ("tcs 0\n", 1, Reason::Range),
    ("tcs 01\n", 1, Reason::Number),
    ("tcs one\n", 1, Reason::Number),
    ("tcs 3 4\n", 1, Reason::Range),
    ("tcs 1 2\n", 1, Reason::Word),
    ("tcs\n", 1, Reason::Word),
    ("tcs \n", 1, Reason::Word),
    ("\n", 1, Reason::Word),
    ("Tcs 1\n", 1, Reason::Word),
    ("tcs 1\ncertifier both\n", 2, Reason::Word),
    ("tcs 1\ncertifier  serial\n", 2, Reason::Word),
    ("tcs 1\nshards 1\n", 2, Reason::Word),
    ("tcs 1\ncertifier serial\nshards 0\n", 3, Reason::Range),
    ("tcs 1\ncertifier serial\nshards 17\n", 3, Reason::Range),
    ("tcs 1\ncertifier serial\nshards +1\n", 3, Reason::Number),
    ("tcs 1\ncertifier serial\nshards 1\x7f\n", 3, Reason::Word),
];

const FIRST_NODES: [(&str, Reason); 10] = [
    ("config 1 1 1", Reason::Word),
    ("events", Reason::Word),
    ("node 2 1", Reason::Order),
    ("node 0 1", Reason::Order),
    ("node 99 1", Reason::Order),
    ("node 1 0", Reason::Range),
    ("node 1 3", Reason::Range),
    ("node one 1", Reason::Number),
    ("node 1", Reason::Word),
    ("node 1 1 1", Reason::Word),
];

const CONFIGURATIONS: [(&str, Reason); 15] = [
    ("node 3 1", Reason::Order),
    ("events", Reason::Word),
    ("config 2 3 3", Reason::Order),
    ("config 0 1 1", Reason::Range),
    ("config 3 1 1", Reason::Range),
    ("config 1 3 1", Reason::Range),
    ("config 1 4 1", Reason::Range),
    ("config 1 1 3", Reason::Range),
    ("config 1 1 2", Reason::Range),
    ("config 1 1 2 ", Reason::Word),
    ("config 1 1", Reason::Word),
    ("config 1 1 ", Reason::Word),
    ("config 1 1 2 1", Reason::Order),
    ("config 1 1 1 1", Reason::Order),
    ("config 1 x 1", Reason::Number),
];

const AFTER_ONE: [(&str, Reason); 3] = [
    ("node 4 2", Reason::Word),
    ("config 1 1 1", Reason::Order),
    ("events", Reason::Word),
];

const AFTER_BOTH: [(&str, Reason); 1] = [("config 3 1 1", Reason::Word)];

const MEMBERS: [(&str, Reason); 3] = [
    ("config 1 1 1 2 3 4 5 6 7 8", Reason::Many),
    ("config 1 1 1 2 3 4 5 6 7 x", Reason::Many),
    ("config 1 1 1 2 3 4 5 6 7 ", Reason::Word),
];

const WANTED: [(&str, Reason); 3] = [
    ("move 1 1 1 2 3 4 5 6 7", Reason::Many),
    ("move 1 1 1 2 3 4 5 6 x", Reason::Many),
    ("move 1 1 1 2 3 4 5 6 ", Reason::Word),
];

const WORDS_OF_EVENTS: [(&str, Reason); 21] = [
    ("certfy 1 v 1 r a 0", Reason::Word),
    ("", Reason::Word),
    (" nudge 1", Reason::Word),
    ("nudge", Reason::Word),
    ("nudge ", Reason::Word),
    ("nudge  1", Reason::Word),
    ("nudge 1 ", Reason::Word),
    ("nudge 1 2", Reason::Word),
    ("nudge 1\t", Reason::Word),
    ("read 1 A", Reason::Word),
    ("read 1 abcdefghijklmnopqrstuvwxyz0123456", Reason::Word),
    ("take 1 1", Reason::Word),
    ("take 1 1.", Reason::Word),
    ("take 1 1.2.3", Reason::Word),
    ("take 1 99.02", Reason::Word),
    ("certify 1 v 1 r a 0 w a 5", Reason::Word),
    ("certify 1 v 1 r a 0 w a 0A", Reason::Word),
    ("certify 1 v 1", Reason::Word),
    ("certify 1", Reason::Word),
    ("settle 1", Reason::Word),
    ("end ", Reason::Word),
];

const NUMBERS_OF_EVENTS: [(&str, Reason); 19] = [
    ("nudge 01", Reason::Number),
    ("nudge -1", Reason::Number),
    ("stop one", Reason::Number),
    ("deliver 18446744073709551616", Reason::Number),
    ("take 1 1.18446744073709551616", Reason::Number),
    ("certify 1 v x r a 0", Reason::Number),
    ("nudge 0", Reason::Range),
    ("nudge 5", Reason::Range),
    ("nudge 257", Reason::Range),
    ("nudge 5 ", Reason::Range),
    ("deliver 0", Reason::Range),
    ("deliver 4294967296", Reason::Range),
    ("take 1 5.1", Reason::Range),
    ("take 1 1.0", Reason::Range),
    ("take 1 1.1000001", Reason::Range),
    ("ask 1 3", Reason::Range),
    ("move 1 0", Reason::Range),
    ("move 1 1 3", Reason::Range),
    ("certify 5 v 0", Reason::Range),
];

const ORDER_AND_PAYLOADS: [(&str, Reason); 10] = [
    ("move 1 1 2 1", Reason::Order),
    ("move 1 1 1 1", Reason::Order),
    ("certify 1 v 1 r b 0 r a 0", Reason::Order),
    ("certify 1 v 1 q b a 0", Reason::Order),
    ("certify 1 v 0 r a 0", Reason::Version),
    ("certify 1 v 1 r a 1", Reason::Version),
    ("certify 1 v 1 q a c 1", Reason::Version),
    ("certify 1 v 1 q a c 0 w b 01", Reason::Unread),
    (
        "certify 1 v 1 q a b 0 q b c 0 q c d 0 q d e 0",
        Reason::Many,
    ),
    ("certify 1 v 1 r a 0 w a 05 r b 0", Reason::Word),
];

const WORKED_HEADER: [(&str, u32, Reason); 1] = [(
    "tcs 1\ncertifier serial\nshards 1\nnode 1 1\nnode 1 1\n",
    5,
    Reason::Order,
)];

const WORKED_EVENTS: [(&str, Reason); 4] = [
    ("certify 2 v 1 r a 0", Reason::Range),
    ("certify 1 v 1 r a 0 w b 01", Reason::Unread),
    ("certify 1 v 1 q a c 0", Reason::Word),
    (
        "certify 1 v 1 r a 0 r b 0 r c 0 r d 0 r e 0 r f 0 r g 0 r h 0 r i 0 r j 0 r k 0 r l 0 r m 0 r n 0 r o 0 r p 0 r q 0",
        Reason::Many,
    ),
];

const ENDS: [(&str, u32, Reason); 7] = [
    ("", 7, Reason::Missing),
    ("certify 1", 7, Reason::Missing),
    ("bad", 7, Reason::Missing),
    ("nudge 1\nend", 8, Reason::Missing),
    ("end\n\n", 8, Reason::Extra),
    ("end\nx", 8, Reason::Extra),
    ("end\nend\n", 8, Reason::Extra),
];

/// Expects each of these ends of a text to be refused at this line, for its reason.
fn expect_ends(
    rt: &impl Abort,
    alloc: Global,
    front: &str,
    cases: &[(&str, u32, Reason)],
) -> Result<(), Fail> {
    for (end, line, reason) in cases {
        let text = joined(alloc, &[front, *end])?;
        let refused = Outcome::Refused {
            line: *line,
            reason: *reason,
        };
        assert_eq!(rt; read_text(alloc, &text, 4096)?, refused, "{end}");
    }
    Ok(())
}

/// Expects a line of so many bytes, before this end, to be refused for this reason.
fn expect_long(
    rt: &impl Abort,
    alloc: Global,
    count: usize,
    end: &str,
    reason: Reason,
) -> Result<(), Fail> {
    let mut text = joined(alloc, &[ONE])?;
    let whole = text.len().saturating_add(count);
    text.resize(whole, b'x')?;
    text.extend_from_slice(end.as_bytes())?;
    assert_eq!(rt;
        read_text(alloc, &text, 7)?,
        Outcome::Refused { line: 7, reason }
    );
    Ok(())
}

#[test]
fn bad_headers(rt: HostRuntime) -> Result<(), Fail> {
    let alloc = rt.alloc();
    expect_bad(&rt, alloc, &FIRST_LINES)?;
    expect_bad(&rt, alloc, &WORKED_HEADER)?;
    expect_refused(&rt, alloc, THREE, 4, &FIRST_NODES)?;
    expect_refused(&rt, alloc, NODES, 7, &CONFIGURATIONS)?;
    expect_refused(&rt, alloc, EIGHT, 12, &MEMBERS)?;
    expect_refused(&rt, alloc, ONE_CONFIG, 8, &AFTER_ONE)?;
    expect_refused(&rt, alloc, BOTH_CONFIGS, 9, &AFTER_BOTH)
}

#[test]
fn bad_events(rt: HostRuntime) -> Result<(), Fail> {
    let alloc = rt.alloc();
    expect_refused(&rt, alloc, TWO, 11, &WORDS_OF_EVENTS)?;
    expect_refused(&rt, alloc, TWO, 11, &NUMBERS_OF_EVENTS)?;
    expect_refused(&rt, alloc, TWO, 11, &ORDER_AND_PAYLOADS)?;
    expect_refused(&rt, alloc, EIGHT_BEGUN, 14, &WANTED)?;
    expect_refused(&rt, alloc, ONE, 7, &WORKED_EVENTS)
}

#[test]
fn bad_ends(rt: HostRuntime) -> Result<(), Fail> {
    let alloc = rt.alloc();
    expect_ends(&rt, alloc, ONE, &ENDS)?;
    expect_long(&rt, alloc, 4096, "", Reason::Missing)?;
    expect_long(&rt, alloc, 4096, "\n", Reason::Word)?;
    expect_long(&rt, alloc, 4097, "", Reason::Long)?;
    expect_long(&rt, alloc, 4097, "\n", Reason::Long)
}
