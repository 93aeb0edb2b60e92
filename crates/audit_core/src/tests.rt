//! The worked traces, and what is said of each.
use crate::audit;
use std::alloc::Global;
use std::test::Fail;
use tcs_io::{MemSink, MemSource};

/// Two transactions begin, and both are prepared.
const BEGUN: &str = concat!(
    "trace 1 serial 1\n",
    "e 1 acted\n",
    "begin 1.1 v 1 r a 0 w a 05\n",
    "m 1 1 1 PREPARE 01000000010100000001010101000000000000000101016100000000000000000101610105\n",
    "e 2 acted\n",
    "begin 1.2 v 1 r a 0 w a 06\n",
    "m 2 1 1 PREPARE 01000000010100000002010101000000000000000101016100000000000000000101610106\n",
    "e 3 acted\n",
    "m 3 1 1 PREPARE_ACK 02010000000100010100000001010100000000000000000101016100000000000000000101610105\n",
    "e 4 acted\n",
    "m 4 1 1 PREPARE_ACK 020100000001000201000000020101010100000001000000000000000101016100000000000000000101610106\n",
    "e 5 acted\n",
    "decide 1.2 ",
);

/// The first of them commits.
const COMMITTED: &str = concat!(
    "\n",
    "m 5 1 1 DECISION 05000000010002010000000202\n",
    "m 6 1 1 OUTCOME 0f01000000020101010100000001\n",
    "e 6 acted\n",
    "decide 1.1 commit\n",
    "m 7 1 1 DECISION 05000000010001010000000101\n",
    "m 8 1 1 OUTCOME 0f010000000100\n",
    "order ",
);

#[test]
fn worked_traces_are_judged(rt: HostRuntime) -> Result<(), Fail> {
    let alloc = rt.alloc();
    let clash = "abort 1 clash 1.1";
    let end = "end 6 8\n";
    for (decision, order, end, wanted) in [
        (clash, "1.1", end, "correct 2 1 1\n"),
        ("commit", "1.2 1.1", end, "incorrect legality 1.1\n"),
        (clash, "1.2", end, "incorrect order 1.2\n"),
        (clash, "1.1", "", "bad trace line 21"),
    ] {
        let text = format!(in alloc; "{BEGUN}{decision}{COMMITTED}{order}\n{end}")?;
        assert_eq!(rt; told(alloc, text)?.as_str(), wanted, "{decision}, {order}");
    }
    Ok(())
}

/// What is written of a trace, or else why it ended.
fn told(alloc: Global, trace: String) -> Result<String, Fail> {
    let mut input = MemSource::new(trace.into_bytes(), 100, Vec::new(alloc));
    let mut output = MemSink::new(alloc, Vec::new(alloc));
    match audit(alloc, &mut input, &mut output) {
        Ok(_) => Ok(String::from_utf8(output.bytes().to_vec(alloc)?)?),
        Err(stop) => Ok(format!(in alloc; "{stop}")?),
    }
}
