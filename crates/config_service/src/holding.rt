//! Messages that the service does not act on.
ghost use Rattle.std.specs.Prelude.{◌≡◌, ◌++◌, IfOk, OnOk};
ghost use Rattle.tcs_terms.specs.declared.inputs.Handled.TheVariants.{Held};
ghost use Rattle.tcs_terms.specs.Kinds.{kind_of, kind_number};
ghost use Rattle.protocol.specs.Notices.{notice_of};
ghost use Rattle.protocol.specs.Service.{last_epoch};
ghost use Rattle.config_service.specs.Marks.{mark_of};

use crate::service::ConfigService;
use answers::notify;
use tcs_terms::{Epoch, Handled, Message, NodeId, OutOfMemory, Outgoing, ShardId};

impl ConfigService {
    /// The last epoch of a shard, 0 where the run does not have the shard.
    pub(crate) fn last_epoch(&self, shard: ShardId) -> Epoch
        ensures { result ≡ last_epoch self.now shard }
    {
        match self.last(shard) {
            None => 0,
            Some(config) => config.epoch(),
        }
    }

    /// The last epoch of the shard that a message names, 0 where it names none.
    pub(crate) fn mark_of(&self, message: &Message) -> Epoch
        ensures { result ≡ mark_of self.now message.now }
    {
        match message {
            Message::PrepareAck { shard, .. }
            | Message::AcceptAck { shard, .. }
            | Message::Last { shard }
            | Message::At { shard, .. } => self.last_epoch(*shard),
            Message::NewConfig { config }
            | Message::NewState { config, .. }
            | Message::ConfigChange { config }
            | Message::Cas { config }
            | Message::Stored { config }
            | Message::StatePiece { config, .. } => self.last_epoch(config.shard()),
            Message::Prepare { .. }
            | Message::Accept { .. }
            | Message::DecisionFor { .. }
            | Message::Probe { .. }
            | Message::ProbeAck { .. }
            | Message::OutcomeOf { .. }
            | Message::Refused { .. } => 0,
        }
    }

    /// Holds a message, and tells its sender so.
    pub(crate) fn hold(
        &self,
        from: NodeId,
        message: &Message,
        out: &mut Vec<Outgoing>,
    ) -> Result<Handled, OutOfMemory>
        ensures answer { IfOk result (λ h. h ≡ Held (mark_of self.now message.now)) }
        ensures sends { OnOk result (out.new.items ≡ out.old.items ++ notice_of (Held (mark_of self.now message.now)) from (kind_number (kind_of message.now)) 0) }
    {
        let handled = Handled::Held(self.mark_of(message));
        notify(handled, from, message.kind().number(), 0, out)?;
        Ok(handled)
    }
}
