//! What the service does with a message.
ghost use Rattle.std.specs.Prelude.{◌≡◌, ◌≤◌, ◌++◌, false, List, IfOk, OnOk, OnErr, option_copied};
ghost use Rattle.tcs_terms.specs.declared.inputs.Result1.TheVariants.{Node};
ghost use Rattle.tcs_terms.specs.declared.kinds.Kind.TheVariants as kinds;
ghost use Rattle.tcs_terms.specs.declared.limits.TheConstants.{MAX_NODES};
ghost use Rattle.tcs_terms.specs.Kinds.{kind_number};
ghost use Rattle.tcs_terms.specs.Messages.{InRange};
ghost use Rattle.tcs_terms.specs.Places.{Membership};
ghost use Rattle.tcs_terms.specs.declared.messages.Message.TheVariants.{Last, At, Cas};
ghost use Rattle.protocol.specs.FoundNothing.{has_acted};
ghost use Rattle.protocol.specs.Notices.{with_notice};
ghost use Rattle.protocol.specs.Service.{is_next, answer_stored, store, serve};
ghost use Rattle.protocol_laws.specs.Ranges.{AreInRange};

use crate::sending::{send_stored, tell_nodes};
use crate::service::ConfigService;
use answers::notify;
use std::alloc::Global;
use tcs_terms::{Config, Epoch, Handled, Kind, Message, NodeId, OutOfMemory, Outgoing, ShardId};

impl ConfigService {
    /// Does with a message, from a node of a run with so many nodes, what the configuration service does with it, and
    /// appends what is sent, which is in range where the message is and nodes are at most 64. Where it does not act, what is
    /// stored stays as it was. Where memory runs out nothing is stored, and what was appended is to be dropped.
    pub fn serve(
        &mut self,
        alloc: Global,
        nodes: NodeId,
        from: NodeId,
        message: &Message,
        out: &mut Vec<Outgoing>,
    ) -> Result<Handled, OutOfMemory>
        ensures answer { IfOk result (λ h. h ≡ (serve nodes self.old from message.now).answer) }
        ensures kept { OnOk result (self.new ≡ (serve nodes self.old from message.now).kept) }
        ensures sends { OnOk result (out.new.items ≡ out.old.items ++ (serve nodes self.old from message.now).sends) }
        ensures range { nodes ≤ MAX_NODES → InRange message.now → OnOk result (AreInRange (serve nodes self.old from message.now).sends) }
        ensures unchanged { IfOk result (λ h. has_acted (Node h) ≡ false → self.new ≡ self.old) }
        ensures err { OnErr result (self.new ≡ self.old) }
    {
        // What is stored is well formed.
        let _ = &self.configs;
        self.hear(alloc, nodes, from, message, out)
    }

    /// The rule of a message.
    #[tactic(auto, unfolding(protocol::specs::Service::serve, protocol::specs::Notices::with_notice))]
    fn hear(
        &mut self,
        alloc: Global,
        nodes: NodeId,
        from: NodeId,
        message: &Message,
        out: &mut Vec<Outgoing>,
    ) -> Result<Handled, OutOfMemory>
        ensures answer { IfOk result (λ h. h ≡ (serve nodes self.old from message.now).answer) }
        ensures kept { OnOk result (self.new ≡ (serve nodes self.old from message.now).kept) }
        ensures sends { OnOk result (out.new.items ≡ out.old.items ++ (serve nodes self.old from message.now).sends) }
        ensures err { OnErr result (self.new ≡ self.old) }
    {
        match message {
            Message::Last { shard } => self.hear_last(alloc, from, *shard, out),
            Message::At { shard, epoch } => self.hear_at(alloc, from, *shard, *epoch, out),
            Message::Cas { config } => self.hear_cas(alloc, nodes, from, config, out),
            Message::ConfigChange { .. }
            | Message::Stored { .. }
            | Message::OutcomeOf { .. }
            | Message::Refused { .. } => Ok(Handled::Held(self.mark_of(message))),
            Message::Prepare { .. }
            | Message::PrepareAck { .. }
            | Message::Accept { .. }
            | Message::AcceptAck { .. }
            | Message::DecisionFor { .. }
            | Message::Probe { .. }
            | Message::ProbeAck { .. }
            | Message::NewConfig { .. }
            | Message::NewState { .. }
            | Message::StatePiece { .. } => self.hold(from, message, out),
        }
    }

    /// Answers the last configuration of a shard.
    #[tactic(auto, unfolding(protocol::specs::Service::serve))]
    fn hear_last(
        &self,
        alloc: Global,
        from: NodeId,
        shard: ShardId,
        out: &mut Vec<Outgoing>,
    ) -> Result<Handled, OutOfMemory>
        ensures answer { IfOk result (λ h. h ≡ (serve 0 self.now from (Last shard)).answer) }
        ensures kept { OnOk result (self.now ≡ (serve 0 self.now from (Last shard)).kept) }
        ensures sends { OnOk result (out.new.items ≡ out.old.items ++ (serve 0 self.now from (Last shard)).sends) }
    {
        answer(alloc, from, Kind::Last, 0, self.last(shard), out)
    }

    /// Answers the configuration of a shard's epoch.
    #[tactic(auto, unfolding(protocol::specs::Service::serve))]
    fn hear_at(
        &self,
        alloc: Global,
        from: NodeId,
        shard: ShardId,
        epoch: Epoch,
        out: &mut Vec<Outgoing>,
    ) -> Result<Handled, OutOfMemory>
        ensures answer { IfOk result (λ h. h ≡ (serve 0 self.now from (At shard epoch)).answer) }
        ensures kept { OnOk result (self.now ≡ (serve 0 self.now from (At shard epoch)).kept) }
        ensures sends { OnOk result (out.new.items ≡ out.old.items ++ (serve 0 self.now from (At shard epoch)).sends) }
    {
        let mark = self.last_epoch(shard);
        answer(alloc, from, Kind::At, mark, self.at(shard, epoch), out)
    }

    /// Stores a configuration of an epoch that is not stored, where it is the next one of its shard. Where its epoch is
    /// stored, answers what was stored.
    #[tactic(auto, unfolding(protocol::specs::Service::serve, protocol::specs::Service::compare_and_set, protocol::specs::Notices::with_notice))]
    fn hear_cas(
        &mut self,
        alloc: Global,
        nodes: NodeId,
        from: NodeId,
        config: &Config,
        out: &mut Vec<Outgoing>,
    ) -> Result<Handled, OutOfMemory>
        ensures answer { IfOk result (λ h. h ≡ (serve nodes self.old from (Cas config.now)).answer) }
        ensures kept { OnOk result (self.new ≡ (serve nodes self.old from (Cas config.now)).kept) }
        ensures sends { OnOk result (out.new.items ≡ out.old.items ++ (serve nodes self.old from (Cas config.now)).sends) }
        ensures err { OnErr result (self.new ≡ self.old) }
    {
        if let Some(kept) = self.at(config.shard(), config.epoch()) {
            send_stored(alloc, from, kept, out)?;
            return Ok(Handled::Acted);
        }
        self.store(alloc, nodes, from, config, out)
    }

    /// Stores a configuration where it is the next one of its shard, and tells every node of it.
    #[tactic(auto, unfolding(protocol::specs::Service::store, protocol::specs::Choices::when, protocol::specs::Notices::with_notice))]
    fn store(
        &mut self,
        alloc: Global,
        nodes: NodeId,
        from: NodeId,
        config: &Config,
        out: &mut Vec<Outgoing>,
    ) -> Result<Handled, OutOfMemory>
        ensures answer { IfOk result (λ h. h ≡ (with_notice from (kind_number kinds.Cas) 0 (store nodes self.old from config.now)).answer) }
        ensures kept { OnOk result (self.new ≡ (with_notice from (kind_number kinds.Cas) 0 (store nodes self.old from config.now)).kept) }
        ensures sends { OnOk result (out.new.items ≡ out.old.items ++ (with_notice from (kind_number kinds.Cas) 0 (store nodes self.old from config.now)).sends) }
        ensures err { OnErr result (self.new ≡ self.old) }
    {
        if !is_next(self.last(config.shard()), config) {
            let handled = Handled::Held(self.last_epoch(config.shard()));
            notify(handled, from, Kind::Cas.number(), 0, out)?;
            return Ok(handled);
        }
        let next = config.copy(alloc)?;
        send_stored(alloc, from, config, out)?;
        tell_nodes(alloc, nodes, config, out)?;
        self.keep(next)?;
        Ok(Handled::Acted)
    }
}

/// Sends a configuration to whoever asked for it by a message of this kind; where there is none, the message is held
/// against the mark.
#[tactic(auto, unfolding(protocol::specs::Service::answer_stored, protocol::specs::Notices::with_notice))]
fn answer(
    alloc: Global,
    from: NodeId,
    kind: Kind,
    mark: Epoch,
    config: Option<&Config>,
    out: &mut Vec<Outgoing>,
) -> Result<Handled, OutOfMemory>
    ensures answer { (configs : List Membership) → IfOk result (λ h. h ≡ (with_notice from (kind_number kind) 0 (answer_stored configs from mark (option_copied config.entry))).answer) }
    ensures kept { (configs : List Membership) → OnOk result (configs ≡ (with_notice from (kind_number kind) 0 (answer_stored configs from mark (option_copied config.entry))).kept) }
    ensures sends { (configs : List Membership) → OnOk result (out.new.items ≡ out.old.items ++ (with_notice from (kind_number kind) 0 (answer_stored configs from mark (option_copied config.entry))).sends) }
{
    match config {
        Some(config) => {
            send_stored(alloc, from, config, out)?;
            Ok(Handled::Acted)
        }
        None => {
            notify(Handled::Held(mark), from, kind.number(), 0, out)?;
            Ok(Handled::Held(mark))
        }
    }
}

/// Whether a configuration is the next one of a shard, after the last one.
pub(crate) fn is_next(last: Option<&Config>, config: &Config) -> bool
    ensures { result ≡ is_next (option_copied last.entry) config.now }
{
    match last {
        None => false,
        Some(last) => config.epoch() == last.epoch() + 1,
    }
}
