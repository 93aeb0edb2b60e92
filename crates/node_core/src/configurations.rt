//! A node hears of configurations that the service stored.
ghost use Rattle.std.specs.Prelude.{◌≡◌, ◌++◌, IfOk, OnOk};
ghost use Rattle.protocol.specs.Table.{is_awaited, on_stored_config};

use crate::parts::Parts;
use std::alloc::Global;
use tcs_laws::VoteGuard;
use tcs_terms::{Config, Handled, OutOfMemory, Outgoing};

impl<G: VoteGuard> Parts<G> {
    /// Whether the node's prober awaits a stored configuration.
    fn awaits(&self, config: &Config) -> bool
        ensures { result ≡ is_awaited self.now config.now }
    {
        self.prober
            .awaits(config, self.coordinator.view_epoch(config.shard()))
    }

    /// STORED: an older view of the shard is replaced, and the prober goes on where it awaited the configuration.
    /// Whether it did is judged by the view before.
    pub(crate) fn hear_stored(
        &mut self,
        alloc: Global,
        config: Config,
        out: &mut Vec<Outgoing>,
    ) -> Result<Handled, OutOfMemory>
        ensures answer { IfOk result (λ h. h ≡ (on_stored_config self.old config).answer) }
        ensures kept { OnOk result (self.new ≡ (on_stored_config self.old config).kept) }
        ensures sends { OnOk result (out.new.items ≡ out.old.items ++ (on_stored_config self.old config).sends) }
    {
        if !self.awaits(&config) {
            return self.coordinator.on_config(config, out);
        }
        self.coordinator.on_config(config.copy(alloc)?, out)?;
        let me = self.replica.name();
        self.prober.on_stored(alloc, me, &config, out)?;
        Ok(Handled::Acted)
    }
}
