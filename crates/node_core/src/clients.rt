//! What a client asks of a node, but for transactions.
ghost use Rattle.std.specs.Prelude.{◌≡◌, ◌++◌, length, IfOk, OnOk, option_copied};
ghost use Rattle.tcs_terms.specs.Shards.{lies_in};
ghost use Rattle.protocol.specs.ClientRules.{nudge, read, ask};
ghost use Rattle.protocol.specs.Versions.{value_or_empty};
ghost use Rattle.node_core.specs.Soundness.{IsKept};

use crate::parts::Parts;
use std::alloc::Global;
use tcs_laws::VoteGuard;
use tcs_terms::{
    Handled, Message, Name, NodeId, Note, OutOfMemory, Outgoing, ShardId, Value, shard_of,
};

/// The configuration service, in a message's ends.
const SERVICE: NodeId = 0;

/// The value that a reading tells: the empty one where there is none.
fn value_or_empty(alloc: Global, value: Option<&Value>) -> Result<Value, OutOfMemory>
    ensures { IfOk result (λ v. v ≡ value_or_empty (option_copied value.entry)) }
{
    match value {
        Some(value) => value.copy(alloc),
        None => match Value::build(alloc, &[]) {
            Ok(value) => Ok(value),
            Err(_) => Err(OutOfMemory),
        },
    }
}

impl<G: VoteGuard> Parts<G> {
    /// All that the node waits for is asked again.
    #[tactic(auto, unfolding(protocol::specs::ClientRules::nudge))]
    pub(crate) fn nudge(
        &mut self,
        alloc: Global,
        out: &mut Vec<Outgoing>,
    ) -> Result<Handled, OutOfMemory>
        ensures answer { IfOk result (λ h. h ≡ (nudge self.old).answer) }
        ensures kept { self.new ≡ self.old }
        ensures sends { OnOk result (out.new.items ≡ out.old.items ++ (nudge self.old).sends) }
    {
        self.coordinator.resend(out)?;
        self.prober.ask(alloc, out)?;
        Ok(Handled::Acted)
    }

    /// Whether an object lies in the node's shard.
    fn has_object(&self, name: &Name) -> bool
        requires { IsKept self.now }
        ensures { result ≡ lies_in (length self.now.coordinator.views) self.now.shard name.now }
    {
        shard_of(name.bytes(), self.coordinator.shards()) == self.replica.shard()
    }

    /// An object of the node's own shard is read.
    #[tactic(auto, unfolding(protocol::specs::ClientRules::read, protocol::specs::Choices::when))]
    pub(crate) fn read(
        &self,
        alloc: Global,
        name: Name,
        notes: &mut Vec<Note>,
    ) -> Result<Handled, OutOfMemory>
        requires { IsKept self.now }
        ensures answer { IfOk result (λ h. h ≡ (read self.now name).answer) }
        ensures notes { OnOk result (notes.new.items ≡ notes.old.items ++ (read self.now name).notes) }
    {
        if !self.has_object(&name) {
            return Ok(Handled::Held(self.replica.state()));
        }
        let reading = self.replica.read(&name);
        let version = reading.version;
        let value = value_or_empty(alloc, reading.value)?;
        notes.push(Note::ReadValue {
            name,
            version,
            value,
        })?;
        Ok(Handled::Acted)
    }

    /// The configuration service is asked for a shard's last configuration.
    #[tactic(auto, unfolding(protocol::specs::ClientRules::ask))]
    pub(crate) fn ask(
        &self,
        shard: ShardId,
        out: &mut Vec<Outgoing>,
    ) -> Result<Handled, OutOfMemory>
        ensures answer { IfOk result (λ h. h ≡ (ask self.now shard).answer) }
        ensures sends { OnOk result (out.new.items ≡ out.old.items ++ (ask self.now shard).sends) }
    {
        let message = Message::Last { shard };
        out.push(Outgoing {
            to: SERVICE,
            message,
        })?;
        Ok(Handled::Acted)
    }
}
