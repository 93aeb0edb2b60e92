//! What a node does with a message.
ghost use Rattle.std.specs.Prelude.{◌≡◌, ◌++◌, [], IfOk, OnOk, if◌then◌else◌};
ghost use Rattle.tcs_terms.specs.Kinds.{kind_number};
ghost use Rattle.tcs_terms.specs.Messages.{InRange};
ghost use Rattle.tcs_terms.specs.Versions.{version_number};
ghost use Rattle.protocol.specs.Notices.{notice_of};
ghost use Rattle.protocol.specs.Table.{receive};
ghost use Rattle.protocol_laws.specs.Effect.{is_answered};
ghost use Rattle.node_core.specs.Hearing.{hear};
ghost use Rattle.node_core.specs.Soundness.{IsKept};

use crate::parts::Parts;
use answers::notify;
use state_transfer::StatePiece;
use std::alloc::Global;
use tcs_laws::VoteGuard;
use tcs_terms::{Epoch, Handled, Kind, Message, NodeId, Note, OutOfMemory, Outgoing, Version};

/// Whether the sender of a message is told where it does not act.
fn is_answered(message: &Message) -> bool
    ensures { result ≡ is_answered message.now }
{
    !matches!(
        message,
        Message::ConfigChange { .. }
            | Message::Stored { .. }
            | Message::OutcomeOf { .. }
            | Message::Refused { .. }
    )
}

/// The notice to the sender of a message of this kind, where it is told. The mark is that of a full log.
fn tell_if(
    told: bool,
    handled: Handled,
    from: NodeId,
    kind: Kind,
    full_mark: Epoch,
    out: &mut Vec<Outgoing>,
) -> Result<(), OutOfMemory>
    ensures { OnOk result (out.new.items ≡ out.old.items ++ (if told then notice_of handled from (kind_number kind) full_mark else [])) }
{
    if told {
        notify(handled, from, kind.number(), full_mark, out)?;
    }
    Ok(())
}

impl<G: VoteGuard> Parts<G> {
    /// The rule of a message, apart from the notice to its sender.
    fn hear(
        &mut self,
        alloc: Global,
        version: Version,
        from: NodeId,
        message: Message,
        out: &mut Vec<Outgoing>,
        notes: &mut Vec<Note>,
    ) -> Result<Handled, OutOfMemory>
        requires range { InRange message }
        requires kept { IsKept self.old }
        ensures answer { IfOk result (λ h. h ≡ (hear G.Rule.tests (version_number version) self.old from message).answer) }
        ensures kept { OnOk result (self.new ≡ (hear G.Rule.tests (version_number version) self.old from message).kept) }
        ensures sends { OnOk result (out.new.items ≡ out.old.items ++ (hear G.Rule.tests (version_number version) self.old from message).sends) }
        ensures notes { OnOk result (notes.new.items ≡ notes.old.items ++ (hear G.Rule.tests (version_number version) self.old from message).notes) }
    {
        match message {
            Message::Prepare {
                epoch,
                txn,
                shards,
                payload,
            } => self
                .replica
                .prepare(alloc, from, epoch, txn, shards, payload, out),
            Message::PrepareAck {
                shard,
                epoch,
                entry,
            } => self
                .coordinator
                .on_prepare_ack(from, shard, epoch, entry, out, notes),
            Message::Accept { epoch, entry } => self.replica.accept(from, epoch, entry, out),
            Message::AcceptAck {
                shard,
                epoch,
                slot,
                txn,
            } => self
                .coordinator
                .on_accept_ack(from, shard, epoch, slot, txn, out, notes),
            Message::DecisionFor {
                epoch,
                slot,
                txn,
                commit,
            } => self.replica.decide(alloc, epoch, slot, txn, commit),
            Message::Probe { epoch } => self.replica.probe(alloc, from, epoch, out),
            Message::ProbeAck { epoch, state } => {
                let me = self.replica.name();
                self.prober.on_probe_ack(alloc, me, from, epoch, state, out)
            }
            Message::NewConfig { config } => self.replica.new_config(alloc, version, config, out),
            Message::NewState { config, rows } => {
                self.replica.new_state(alloc, version, config, rows)
            }
            Message::StatePiece {
                config,
                piece,
                pieces,
                rows,
            } => {
                let number = piece;
                let piece = StatePiece {
                    number,
                    pieces,
                    rows,
                };
                self.replica.state_piece(alloc, version, config, piece)
            }
            Message::ConfigChange { config } => self.coordinator.on_config(config, out),
            Message::Stored { config } => self.hear_stored(alloc, config, out),
            Message::OutcomeOf { txn, decision } => self.hear_outcome(txn, decision),
            Message::Refused { .. } => Ok(Handled::Acted),
            Message::Last { .. } | Message::At { .. } => Ok(Handled::Held(0)),
            Message::Cas { config: _config } => Ok(Handled::Held(0)),
        }
    }

    /// A message is delivered. Where it does not act its sender is told, with the mark of a full log.
    pub(crate) fn receive(
        &mut self,
        alloc: Global,
        version: Version,
        from: NodeId,
        message: Message,
        out: &mut Vec<Outgoing>,
        notes: &mut Vec<Note>,
    ) -> Result<Handled, OutOfMemory>
        requires range { InRange message }
        requires kept { IsKept self.old }
        ensures answer { IfOk result (λ h. h ≡ (receive G.Rule.tests (version_number version) self.old from message).answer) }
        ensures kept { OnOk result (self.new ≡ (receive G.Rule.tests (version_number version) self.old from message).kept) }
        ensures sends { OnOk result (out.new.items ≡ out.old.items ++ (receive G.Rule.tests (version_number version) self.old from message).sends) }
        ensures notes { OnOk result (notes.new.items ≡ notes.old.items ++ (receive G.Rule.tests (version_number version) self.old from message).notes) }
    {
        let told = is_answered(&message);
        let kind = message.kind();
        let full_mark = self.replica.promised();
        let handled = self.hear(alloc, version, from, message, out, notes)?;
        tell_if(told, handled, from, kind, full_mark, out)?;
        Ok(handled)
    }
}
