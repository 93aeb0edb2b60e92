//! The other commands of the top call, with what each reads and has to write.

use crate::replaying::run_of;
use anyhow::Error;
use std::alloc::Global;
use std::fmt::{self, Display, Formatter};
use std::fs;
use std::rt::Files;
use tcs_run::Status;

/// A command: its words, the file that it reads, and the one that it has to write. It reads, or writes, nothing where there
/// is none.
#[derive(Clone, Copy)]
pub(crate) struct Case {
    words: &'static [&'static str],
    input: Option<&'static str>,
    output: Option<&'static str>,
}

pub(crate) const COMMANDS: [Case; 16] = [
    Case {
        words: &["gen", "1", "2000"],
        input: None,
        output: Some("generated_1_2000.sched"),
    },
    Case {
        words: &["soak", "1", "2000"],
        input: None,
        output: Some("generated_1_2000.soak"),
    },
    Case {
        words: &["replay"],
        input: Some("generated_1_2000.sched"),
        output: Some("generated_1_2000.trace"),
    },
    Case {
        words: &["audit"],
        input: Some("generated_1_2000.trace"),
        output: Some("generated_1_2000.verdict"),
    },
    Case {
        words: &["audit"],
        input: Some("judged_correct.trace"),
        output: Some("judged_correct.verdict"),
    },
    Case {
        words: &["audit"],
        input: Some("judged_illegal.trace"),
        output: Some("judged_illegal.verdict"),
    },
    Case {
        words: &["audit"],
        input: Some("judged_out_of_order.trace"),
        output: Some("judged_out_of_order.verdict"),
    },
    Case {
        words: &["audit"],
        input: Some("judged_too_short.trace"),
        output: None,
    },
    Case {
        words: &["quorum"],
        input: Some("two_proposers.quorum"),
        output: Some("two_proposers.run"),
    },
    Case {
        words: &["quorum"],
        input: Some("bad_quorum_line.quorum"),
        output: Some("bad_quorum_line.run"),
    },
    Case {
        words: &["quorum"],
        input: Some("epoch_too_far.quorum"),
        output: Some("epoch_too_far.run"),
    },
    Case {
        words: &["totals"],
        input: Some("commuting_additions.sched"),
        output: Some("commuting_additions.totals"),
    },
    Case {
        words: &["totals"],
        input: Some("commuting_additions_serial.sched"),
        output: None,
    },
    Case {
        words: &["restore"],
        input: Some("backup.backup"),
        output: Some("backup.restored"),
    },
    Case {
        words: &["restore"],
        input: Some("backup_aborted.backup"),
        output: Some("backup_aborted.restored"),
    },
    Case {
        words: &["restore"],
        input: Some("bad_backup_line.backup"),
        output: None,
    },
];

/// How a command ended, and whether it wrote what it has to write.
#[derive(Clone, Copy)]
pub(crate) struct Done {
    case: Case,
    status: Status,
    as_told: bool,
}

impl Display for Done {
    fn fmt<W: fmt::Write>(&self, f: &mut Formatter<W>) -> fmt::Result {
        for word in self.case.words {
            write!(f, "{word} ")?;
        }
        if let Some(input) = self.case.input {
            write!(f, "< {input} ")?;
        }
        let wrote = if self.as_told {
            "as told"
        } else {
            "not as told"
        };
        write!(f, "{wrote}: {} {}", self.status.code(), self.status)
    }
}

/// Does what a command says.
pub(crate) fn carry_out<R: Files + AllocGlobal>(rt: &R, case: Case) -> Result<Done, Error> {
    let input = bytes_of(rt, case.input)?;
    let output = bytes_of(rt, case.output)?;
    let ran = run_of(rt.alloc(), case.words, &input, 4096)?;
    Ok(Done {
        case,
        status: ran.status,
        as_told: ran.written.as_slice() == output.as_slice(),
    })
}

fn bytes_of<R: Files + AllocGlobal>(rt: &R, file: Option<&str>) -> Result<Vec<u8>, Error> {
    match file {
        Some(name) => Ok(fs::read(rt, name)?),
        None => Ok(Vec::new(rt.alloc())),
    }
}
