//! What a node does with an input.
ghost use Rattle.std.specs.Prelude.{◌≡◌, ◌++◌, IfOk, OnOk};
ghost use Rattle.tcs_terms.specs.Events.{InputInRange};
ghost use Rattle.tcs_terms.specs.Versions.{version_number};
ghost use Rattle.protocol.specs.Table.{step};
ghost use Rattle.node_core.specs.Soundness.{IsKept};

use crate::parts::Parts;
use std::alloc::Global;
use tcs_laws::VoteGuard;
use tcs_terms::{Handled, Input, Note, OutOfMemory, Outgoing, Version};

impl<G: VoteGuard> Parts<G> {
    /// What the node does with an input.
    #[tactic(auto, unfolding(protocol::specs::Table::step, protocol::specs::ClientRules::go_lower))]
    pub(crate) fn take_input(
        &mut self,
        alloc: Global,
        version: Version,
        input: Input,
        out: &mut Vec<Outgoing>,
        notes: &mut Vec<Note>,
    ) -> Result<Handled, OutOfMemory>
        requires range { InputInRange input }
        requires kept { IsKept self.old }
        ensures answer { IfOk result (λ h. h ≡ (step G.Rule.tests (version_number version) self.old input).answer) }
        ensures kept { OnOk result (self.new ≡ (step G.Rule.tests (version_number version) self.old input).kept) }
        ensures sends { OnOk result (out.new.items ≡ out.old.items ++ (step G.Rule.tests (version_number version) self.old input).sends) }
        ensures notes { OnOk result (notes.new.items ≡ notes.old.items ++ (step G.Rule.tests (version_number version) self.old input).notes) }
    {
        match input {
            Input::Certify(payload) => self.certify(alloc, payload, out, notes),
            Input::Take(txn) => self.take(alloc, txn, out, notes),
            Input::Nudge => self.nudge(alloc, out),
            Input::Move { shard, want } => self.prober.start_move(shard, want, out),
            Input::Lower => self.prober.lower(out),
            Input::ReadName(name) => self.read(alloc, name, notes),
            Input::Ask(shard) => self.ask(shard, out),
            Input::Deliver { from, message } => {
                self.receive(alloc, version, from, message, out, notes)
            }
        }
    }
}
