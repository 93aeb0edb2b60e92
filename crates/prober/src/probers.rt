//! What a node moves.
ghost use Rattle.std.specs.Prelude.{◌≡◌, ◌≤◌, ◌++◌, ℕ, List, IsTrue, IfOk, OnOk, OnErr};
ghost use Rattle.tcs_terms.specs.declared.limits.TheConstants.{MAX_NODES};
ghost use Rattle.tcs_terms.specs.declared.inputs.Input.TheVariants.{Move};
ghost use Rattle.tcs_terms.specs.declared.messages.Outgoing.{Outgoing as Sent};
ghost use Rattle.tcs_terms.specs.Events.{InputInRange};
ghost use Rattle.protocol.specs.Records.Stage.{Idle};
ghost use Rattle.prober.specs.Soundness.{AreInRange};
ghost use Rattle.protocol.specs.Probing.{prober_epoch, start_move, ask_stage, awaits, on_stored, on_probe_ack, lower};

use crate::moves;
use crate::requests::{ask_again, ask_last};
use crate::stages::Stage;
use std::alloc::Global;
use std::marker::Model;
use tcs_terms::{Config, Epoch, Handled, NodeId, OutOfMemory, Outgoing, ShardId, Wanted};

/// What a node moves, if anything: the stage of the move. Where memory runs out in a call, the prober is as it was
/// before, and the messages that stood there still stand in front.
#[derive(Drop)]
pub struct Prober {
    stage: Stage,
}

impl Model for Prober {
    ghost use Rattle.protocol.specs.Records.{Stage as Kept};
    ghost use Rattle.prober.specs.Stages.{stage_of};
    ghost use Rattle.prober.specs.Soundness.{IsSound};

    ghost Value = { Kept };

    ghost view = { λ p. stage_of p.stage };

    ghost invariant = { λ p. IsSound (stage_of p.stage) };
}

impl Prober {
    /// Nothing is moved.
    pub fn new() -> Prober
        ensures { result ≡ Idle }
    {
        Prober { stage: Stage::Idle }
    }

    /// The epoch that is to come, 0 before it is known.
    pub fn mark(&self) -> Epoch
        ensures { result ≡ prober_epoch self.now }
    {
        self.stage.epoch()
    }

    /// A move of a shard (1 to 16) begins, whatever the prober did before; at most 6 nodes are wanted, ascending within
    /// 1 to 64. It always acts.
    #[tactic(auto, unfolding(protocol::specs::Probing::start_move))]
    pub fn start_move(
        &mut self,
        shard: ShardId,
        want: Wanted,
        out: &mut Vec<Outgoing>,
    ) -> Result<Handled, OutOfMemory>
        requires { InputInRange (Move shard want) }
        ensures answer { IfOk result (λ h. h ≡ (start_move shard want).answer) }
        ensures kept { OnOk result (self.new ≡ (start_move shard want).kept) }
        ensures sends { OnOk result (out.new.items ≡ out.old.items ++ (start_move shard want).sends) }
        ensures in_range { AreInRange (start_move shard want).sends }
        ensures unchanged { OnErr result (self.new ≡ self.old) }
        ensures unsent { OnErr result (out.new.items ≡ out.old.items) }
    {
        ask_last(shard, out)?;
        self.stage = Stage::AskedLast { shard, want };
        Ok(Handled::Acted)
    }

    /// What the prober waits for is asked again.
    pub fn ask(&self, alloc: Global, out: &mut Vec<Outgoing>) -> Result<(), OutOfMemory>
        ensures sends { OnOk result (out.new.items ≡ out.old.items ++ ask_stage self.now) }
        ensures in_range { AreInRange (ask_stage self.now) }
        ensures begins { OnErr result ((more : List Sent) × (out.new.items ≡ out.old.items ++ more)) }
    {
        ask_again(alloc, &self.stage, out)
    }

    /// Whether this stored configuration is waited for, where the view of its shard has that epoch.
    pub fn awaits(&self, config: &Config, view: Epoch) -> bool
        ensures { result ≡ awaits self.now config.now view }
    {
        self.stage.awaits(config, view)
    }

    /// A stored configuration is there that the prober awaits: its members are probed, or the move is done, and then
    /// its leader is told where this node, `me`, proposed it.
    pub fn on_stored(
        &mut self,
        alloc: Global,
        me: NodeId,
        config: &Config,
        out: &mut Vec<Outgoing>,
    ) -> Result<(), OutOfMemory>
        requires { (view : ℕ) × IsTrue (awaits self.old config.now view) }
        ensures kept { OnOk result (self.new ≡ (on_stored me self.old config.now).kept) }
        ensures sends { OnOk result (out.new.items ≡ out.old.items ++ (on_stored me self.old config.now).sends) }
        ensures in_range { AreInRange (on_stored me self.old config.now).sends }
        ensures unchanged { OnErr result (self.new ≡ self.old) }
        ensures begins { OnErr result ((more : List Sent) × (out.new.items ≡ out.old.items ++ more)) }
    {
        moves::on_stored(&mut self.stage, alloc, me, config, out)
    }

    /// A node promised an epoch, and told the last one in which it was initialised, 0 if never: it is proposed as
    /// leader, or marked low. Where the prober does not probe it for that epoch, the answer is `Stale` or `Held`, and
    /// tells the epoch that is to come. This node, `me`, is at most 64.
    pub fn on_probe_ack(
        &mut self,
        alloc: Global,
        me: NodeId,
        from: NodeId,
        epoch: Epoch,
        state: Epoch,
        out: &mut Vec<Outgoing>,
    ) -> Result<Handled, OutOfMemory>
        requires { me ≤ MAX_NODES }
        ensures answer { IfOk result (λ h. h ≡ (on_probe_ack me self.old from epoch state).answer) }
        ensures kept { OnOk result (self.new ≡ (on_probe_ack me self.old from epoch state).kept) }
        ensures sends { OnOk result (out.new.items ≡ out.old.items ++ (on_probe_ack me self.old from epoch state).sends) }
        ensures in_range { AreInRange (on_probe_ack me self.old from epoch state).sends }
        ensures unchanged { OnErr result (self.new ≡ self.old) }
        ensures unsent { OnErr result (out.new.items ≡ out.old.items) }
    {
        moves::on_probe_ack(&mut self.stage, alloc, me, from, epoch, state, out)
    }

    /// Down one epoch, once a member of the probed configuration answered low and where there is a lower one; else the
    /// answer is `Held`, and tells the epoch that is to come.
    pub fn lower(&mut self, out: &mut Vec<Outgoing>) -> Result<Handled, OutOfMemory>
        ensures answer { IfOk result (λ h. h ≡ (lower self.old).answer) }
        ensures kept { OnOk result (self.new ≡ (lower self.old).kept) }
        ensures sends { OnOk result (out.new.items ≡ out.old.items ++ (lower self.old).sends) }
        ensures in_range { AreInRange (lower self.old).sends }
        ensures unchanged { OnErr result (self.new ≡ self.old) }
        ensures unsent { OnErr result (out.new.items ≡ out.old.items) }
    {
        moves::lower(&mut self.stage, out)
    }
}
