//! Scripts, for a whole cluster and for one node.

use crate::tests::support::{Outcome, expect_script_refused, joined, read_script};
use schedule_text::ScriptForm;
use std::alloc::Global;
use std::process::Abort;
use std::test::Fail;
use text_words::Reason;

/// Two nodes; seven lines.
const TWO: &str = "tcs 1\ncertifier serial\nshards 1\nnode 1 1\nnode 2 1\nconfig 1 1 1 2\nevents\n";

const CLUSTER: ScriptForm = ScriptForm::Cluster { turns: 15_000 };

const BAD_LINES_OF_A_CLUSTER: [(&str, Reason); 10] = [
    ("deliver 1", Reason::Word),
    ("settle", Reason::Word),
    ("settle ", Reason::Word),
    ("settle 1\x01", Reason::Word),
    ("settle x", Reason::Number),
    ("settle 0", Reason::Range),
    ("settle 15001", Reason::Many),
    ("settle 18446744073709551615", Reason::Many),
    ("settle 1 1", Reason::Word),
    ("nudge 3", Reason::Range),
];

const BAD_LINES_OF_A_NODE: [(&str, Reason); 7] = [
    ("deliver 1", Reason::Word),
    ("nudge 1", Reason::Range),
    ("stop 1", Reason::Range),
    ("nudge 3", Reason::Range),
    ("nudge x", Reason::Number),
    ("settle 0", Reason::Range),
    ("settle 1000000001", Reason::Range),
];

const BAD_LINES_OF_THE_SERVICE: [(&str, Reason); 2] = [
    ("nudge 1", Reason::Range),
    ("deliver 1", Reason::Word),
];

const NO_SUCH_NODE: [(&str, Reason); 2] = [("events", Reason::Range), ("events x", Reason::Word)];

/// The turns pass the sum at its last line, line 10.
const SEVEN: [(&str, Reason); 1] = [("settle 4\nsettle 3\nsettle 1", Reason::Many)];
/// The lines before `events`.
const NOT_BEGUN: &str = "tcs 1\ncertifier serial\nshards 1\nnode 1 1\nnode 2 1\nconfig 1 1 1 2\n";

fn expect_turns(
    rt: &impl Abort,
    alloc: Global,
    form: ScriptForm,
    lines: &str,
    events: u32,
) -> Result<(), Fail> {
    let text = joined(alloc, &[TWO, lines])?;
    assert_eq!(rt; read_script(alloc, form, &text)?, Outcome::Read { events });
    Ok(())
}

#[test]
fn scripts(rt: HostRuntime) -> Result<(), Fail> {
    let alloc = rt.alloc();
    let lines = "certify 1 v 1 r a 0\nsettle 7\nnudge 2\nsettle 14993\nend\n";
    expect_turns(&rt, alloc, CLUSTER, lines, 15_002)?;
    let own = "nudge 2\nsettle 1000000000\nstop 2\nend\n";
    expect_turns(&rt, alloc, ScriptForm::Node(2), own, 1_000_000_002)?;
    expect_turns(&rt, alloc, ScriptForm::Node(0), "settle 3\nend\n", 3)
}

#[test]
fn bad_scripts(rt: HostRuntime) -> Result<(), Fail> {
    let alloc = rt.alloc();
    let seven = ScriptForm::Cluster { turns: 7 };
    expect_script_refused(&rt, alloc, CLUSTER, TWO, 8, &BAD_LINES_OF_A_CLUSTER)?;
    expect_script_refused(
        &rt,
        alloc,
        ScriptForm::Node(2),
        TWO,
        8,
        &BAD_LINES_OF_A_NODE,
    )?;
    expect_script_refused(
        &rt,
        alloc,
        ScriptForm::Node(0),
        TWO,
        8,
        &BAD_LINES_OF_THE_SERVICE,
    )?;
    expect_script_refused(&rt, alloc, ScriptForm::Node(3), NOT_BEGUN, 7, &NO_SUCH_NODE)?;
    expect_script_refused(&rt, alloc, seven, TWO, 10, &SEVEN)
}
