//! How a leader sends its rows to the followers of a configuration.
ghost use Rattle.std.specs.Prelude.{◌≡◌, ◌++◌, ◌∷◌, [], flat_map, map, IfOk, OnOk, OnErr};
ghost use Rattle.std.specs.List.{range_with_len};
ghost use Rattle.tcs_terms.specs.declared.messages.Message.TheVariants.{NewState, StatePiece};
ghost use Rattle.tcs_terms.specs.Appends.{Begins};
ghost use Rattle.tcs_terms.specs.Logs.{AreRows};
ghost use Rattle.tcs_terms.specs.Versions.{version_number};
ghost use Rattle.protocol.specs.Outcomes.{to};
ghost use Rattle.protocol.specs.Pieces.{piece_count, piece_of};
ghost use Rattle.protocol.specs.ShardRules.{state_to};
ghost use Rattle.protocol.specs.Views.{followers};
ghost use Rattle.state_transfer.specs.Sent.{piece_to};

use crate::copies::copied;
use crate::pieces::{piece, piece_count};
use std::alloc::Global;
use tcs_terms::{Config, Message, NodeId, OutOfMemory, Outgoing, Row, Version};

fn whole_message(alloc: Global, config: &Config, rows: &[Row]) -> Result<Message, OutOfMemory>
    requires { AreRows rows.now }
    ensures { IfOk result (λ m. m ≡ NewState config.now rows.now) }
{
    Ok(Message::NewState {
        config: config.copy(alloc)?,
        rows: copied(alloc, rows)?,
    })
}

fn send_whole(
    alloc: Global,
    config: &Config,
    rows: &[Row],
    node: NodeId,
    out: &mut Vec<Outgoing>,
) -> Result<(), OutOfMemory>
    requires { AreRows rows.now }
    ensures ok { OnOk result (out.new.items ≡ out.old.items ++ to node (NewState config.now rows.now) ∷ []) }
    ensures err { OnErr result (Begins out.old.items out.new.items) }
{
    let message = whole_message(alloc, config, rows)?;
    out.push(Outgoing { to: node, message })?;
    Ok(())
}

fn piece_message(
    alloc: Global,
    config: &Config,
    rows: &[Row],
    number: u16,
) -> Result<Message, OutOfMemory>
    requires { AreRows rows.now }
    ensures { IfOk result (λ m. m ≡ StatePiece config.now number (piece_count rows.now) (piece_of rows.now number)) }
{
    Ok(Message::StatePiece {
        config: config.copy(alloc)?,
        piece: number,
        pieces: piece_count(rows),
        rows: copied(alloc, piece(rows, number))?,
    })
}

fn send_pieces(
    alloc: Global,
    config: &Config,
    rows: &[Row],
    node: NodeId,
    out: &mut Vec<Outgoing>,
) -> Result<(), OutOfMemory>
    requires { AreRows rows.now }
    ensures ok { OnOk result (out.new.items ≡ out.old.items ++ map (piece_to config.now rows.now node) (range_with_len 1 (piece_count rows.now))) }
    ensures err { OnErr result (Begins out.old.items out.new.items) }
{
    for before in 0..piece_count(rows) {
        let message = piece_message(alloc, config, rows, before + 1)?;
        out.push(Outgoing { to: node, message })?;
    }
    Ok(())
}

/// Appends the messages that hand a leader's rows to one follower: in pieces under version 2, else whole. After an error
/// what was there still stands in front.
#[tactic(auto, unfolding(protocol::specs::ShardRules::state_to, protocol::specs::Choices::when))]
pub fn send_state(
    alloc: Global,
    version: Version,
    config: &Config,
    rows: &[Row],
    node: NodeId,
    out: &mut Vec<Outgoing>,
) -> Result<(), OutOfMemory>
    requires { AreRows rows.now }
    ensures ok { OnOk result (out.new.items ≡ out.old.items ++ state_to (version_number version) config.now rows.now node) }
    ensures err { OnErr result (Begins out.old.items out.new.items) }
{
    match version {
        Version::One => send_whole(alloc, config, rows, node, out),
        Version::Two => send_pieces(alloc, config, rows, node, out),
    }
}

/// Appends the messages that hand a leader's rows to each follower of a configuration, as `send_state` does.
pub fn send_states(
    alloc: Global,
    version: Version,
    config: &Config,
    rows: &[Row],
    out: &mut Vec<Outgoing>,
) -> Result<(), OutOfMemory>
    requires { AreRows rows.now }
    ensures ok { OnOk result (out.new.items ≡ out.old.items ++ flat_map (state_to (version_number version) config.now rows.now) (followers config.now)) }
    ensures err { OnErr result (Begins out.old.items out.new.items) }
{
    for member in config.members() {
        if *member != config.leader() {
            send_state(alloc, version, config, rows, *member, out)?;
        }
    }
    Ok(())
}
