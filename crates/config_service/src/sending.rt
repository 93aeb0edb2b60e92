//! What the service sends.
ghost use Rattle.std.specs.Prelude.{◌≡◌, ◌++◌, ◌∷◌, [], OnOk};
ghost use Rattle.tcs_terms.specs.declared.messages.Message.TheVariants.{Stored};
ghost use Rattle.protocol.specs.Outcomes.{to};
ghost use Rattle.protocol.specs.Service.{tell_nodes};

use std::alloc::Global;
use tcs_terms::{Config, Message, NodeId, OutOfMemory, Outgoing};

/// Sends a configuration that is stored to the node that asked.
pub(crate) fn send_stored(
    alloc: Global,
    asker: NodeId,
    config: &Config,
    out: &mut Vec<Outgoing>,
) -> Result<(), OutOfMemory>
    ensures { OnOk result (out.new.items ≡ out.old.items ++ to asker (Stored config.now) ∷ []) }
{
    let message = Message::Stored {
        config: config.copy(alloc)?,
    };
    Ok(out.push(Outgoing { to: asker, message })?)
}

/// Tells every node of a new configuration; the nodes are numbered from 1.
#[tactic(auto, unfolding(protocol::specs::Service::tell_nodes))]
pub(crate) fn tell_nodes(
    alloc: Global,
    nodes: NodeId,
    config: &Config,
    out: &mut Vec<Outgoing>,
) -> Result<(), OutOfMemory>
    ensures { OnOk result (out.new.items ≡ out.old.items ++ tell_nodes nodes config.now) }
{
    for before in 0..nodes {
        let message = Message::ConfigChange {
            config: config.copy(alloc)?,
        };
        out.push(Outgoing {
            to: before + 1,
            message,
        })?;
    }
    Ok(())
}
