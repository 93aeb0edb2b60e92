//! What a sender hears of a message that was not acted on.
ghost use Rattle.std.specs.Prelude.{◌≡◌, ◌++◌, ◌∷◌, [], OnOk, OnErr};
ghost use Rattle.tcs_terms.specs.declared.messages.Message.TheVariants.{Refused};
ghost use Rattle.protocol.specs.Notices.{notice_of};

use tcs_terms::{Epoch, Handled, Message, NodeId, OutOfMemory, Outgoing, Why};

fn push_notice(
    to: NodeId,
    kind: u8,
    why: Why,
    mark: Epoch,
    sent: &mut Vec<Outgoing>,
) -> Result<(), OutOfMemory>
    ensures ok { OnOk result (sent.new.items ≡ sent.old.items ++ record { to = to; message = Refused kind why mark } ∷ []) }
    ensures err { OnErr result (sent.new.items ≡ sent.old.items) }
{
    let message = Message::Refused { kind, why, mark };
    Ok(sent.push(Outgoing { to, message })?)
}

/// Appends the notice of an answer to whoever sent the message, of this kind, 1 to 17: none where it acted. Where the log
/// is full the notice has `full_mark`. Where memory runs out nothing is appended.
pub fn notify(
    handled: Handled,
    from: NodeId,
    kind: u8,
    full_mark: Epoch,
    sent: &mut Vec<Outgoing>,
) -> Result<(), OutOfMemory>
    ensures ok { OnOk result (sent.new.items ≡ sent.old.items ++ notice_of handled from kind full_mark) }
    ensures err { OnErr result (sent.new.items ≡ sent.old.items) }
{
    match handled {
        Handled::Acted => Ok(()),
        Handled::Stale(mark) => push_notice(from, kind, Why::Stale, mark, sent),
        Handled::Held(mark) => push_notice(from, kind, Why::Held, mark, sent),
        Handled::Full => push_notice(from, kind, Why::Full, full_mark, sent),
    }
}
