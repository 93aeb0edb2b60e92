//! A node becomes leader of a configuration.
ghost use Rattle.std.specs.Prelude.{◌≡◌, ◌++◌, ◌&&◌, ◌==◌, IsTrue, IsErr, IfOk, OnOk};
ghost use Rattle.std.specs.Result.{is_err};
ghost use Rattle.tcs_terms.specs.Versions.{version_number};
ghost use Rattle.protocol.specs.Records.{NodeRecord};
ghost use Rattle.protocol.specs.ShardRules.{is_fenced, on_new_config};
ghost use Rattle.replica.specs.Replicas.{within};

use crate::replicas::Replica;
use answers::refusal;
use state_transfer::send_states;
use std::alloc::Global;
use tcs_laws::VoteGuard;
use tcs_terms::{Config, Handled, OutOfMemory, Outgoing, Version};

impl<G: VoteGuard> Replica<G> {
    /// Whether the node is fenced, and promised the epoch of this configuration of its shard, which it is to lead.
    fn may_lead(&self, config: &Config) -> bool
        ensures { let s = self.now in result ≡
            ((config.now.shard == s.shard) && is_fenced s.role && (s.promised == config.now.epoch) && (config.now.leader == s.name)) }
    {
        let role = self.duty.role();
        config.shard() == self.shard
            && role.is_fenced()
            && role.promised() == config.epoch()
            && config.leader() == self.name
    }

    /// NEW_CONFIG: a fenced node that promised this epoch becomes its leader, and sends its rows to the followers, in
    /// pieces under version 2.
    pub fn new_config(
        &mut self,
        alloc: Global,
        version: Version,
        config: Config,
        out: &mut Vec<Outgoing>,
    ) -> Result<Handled, OutOfMemory>
        ensures answer { (node : NodeRecord) → IfOk result (λ h. h ≡ (on_new_config (version_number version) (within node self.old) config).answer) }
        ensures kept { (node : NodeRecord) → OnOk result (within node self.new ≡ (on_new_config (version_number version) (within node self.old) config).kept) }
        ensures sends { (node : NodeRecord) → OnOk result (out.new.items ≡ out.old.items ++ (on_new_config (version_number version) (within node self.old) config).sends) }
        ensures spent { self.new.spent ≡ is_err result }
        ensures refuses { IsTrue self.old.spent → IsErr result }
    {
        if self.spent {
            return Err(OutOfMemory);
        }
        if !self.may_lead(&config) {
            return Ok(refusal(config.epoch(), self.least()));
        }
        self.spent = true;
        let rows = self.duty.role().log().rows();
        send_states(alloc, version, &config, rows, out)?;
        self.duty.lead(alloc, config);
        self.spent = false;
        Ok(Handled::Acted)
    }
}
