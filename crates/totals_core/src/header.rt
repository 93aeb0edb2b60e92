//! Reads a schedule up to its line `events`, as far as its rule is that additions commute.
ghost use Rattle.std.specs.Prelude.{◌≡◌, ◌≤◌, Err, [], IfOk, IfErr, OnOk, IsErrOf};
ghost use Rattle.tcs_io.specs.Faults.{Rose};
ghost use Rattle.tcs_terms.specs.declared.setups.Rule.TheVariants as rules;
ghost use Rattle.text_words.specs.declared.words.Reason.TheVariants as reasons;
ghost use Rattle.schedule_text.specs.Schedules.{at_start};
ghost use Rattle.totals_core.specs.Progressing.{BegunCommuting, StopsUnwritten};

use replay_core::{Reading, ReplayStop};
use schedule_text::LineItem;
use tcs_io::Source;
use tcs_terms::{Rule, Setup};
use text_words::Reason;

/// The line that names the rule.
const RULE_LINE: u32 = 2;

/// Takes the lines of the header, the line `events` last, and answers the setup that they make. A line 2 that names
/// another rule is refused before line 3 is read.
pub(crate) fn commuting_header<S: Source>(
    reading: &mut Reading,
    input: &mut S,
) -> Result<Setup, ReplayStop>
    requires none { reading.old.lines ≡ [] }
    requires start { reading.old.reader ≡ at_start }
    requires number { reading.old.number ≡ 0 }
    ensures begun { IfOk result (BegunCommuting reading.new (S.left input.old) (S.left input.new)) }
    ensures stopped { IfErr result (StopsUnwritten (S.left input.old) (S.left input.new)) }
    ensures count { S.faults input.old ≤ S.faults input.new }
    ensures fault { IsErrOf result ReplayStop.ReadFault → Rose (S.faults input.old) (S.faults input.new) }
    ensures unwritten { IsErrOf result ReplayStop.WriteFault → ⊥ }
{
    'lines: loop {
        match reading.take(input)? {
            LineItem::Header => rule_allowed(reading)?,
            LineItem::Begun(setup) => return Ok(setup),
            LineItem::Event(_) => unreachable!(),
            LineItem::End => unreachable!(),
        }
    }
}

/// Refuses the line that names the rule, where it names another one.
fn rule_allowed(reading: &Reading) -> Result<(), ReplayStop>
    ensures ok { OnOk result (reading.now.number ≡ 2 → reading.now.reader.head.setup.rule ≡ rules.Commute) }
    ensures line { IfErr result (λ stop. reading.now.number ≡ 2) }
    ensures stop { IfErr result (λ stop. stop ≡ ReplayStop.Bad 2 reasons.Word) }
    ensures other { IfErr result (λ stop. reading.now.reader.head.setup.rule ≡ rules.Commute → ⊥) }
{
    if reading.number != RULE_LINE {
        return Ok(());
    }
    match reading.reader.rule() {
        Rule::Commute => Ok(()),
        Rule::Serial => other_rule(),
        Rule::Snapshot => other_rule(),
    }
}

/// The line that names the rule names another one.
fn other_rule() -> Result<(), ReplayStop>
    ensures { result ≡ Err (ReplayStop.Bad 2 reasons.Word) }
{
    Err(ReplayStop::Bad {
        line: RULE_LINE,
        reason: Reason::Word,
    })
}
