//! The messages of a prober. Where memory runs out, what was there before still stands in front.
ghost use Rattle.std.specs.Prelude.{◌≡◌, ◌++◌, ◌∷◌, [], List, OnOk, OnErr};
ghost use Rattle.tcs_terms.specs.declared.messages.Message.TheVariants.{Last, At, Cas};
ghost use Rattle.tcs_terms.specs.declared.messages.Outgoing.{Outgoing as Sent};
ghost use Rattle.protocol.specs.Outcomes.{to};
ghost use Rattle.protocol.specs.Probing.{probe, ask_stage, tell_leader};
ghost use Rattle.prober.specs.Stages.{stage_of};

use crate::stages::Stage;
use std::alloc::Global;
use tcs_terms::{Config, Epoch, Message, NodeId, OutOfMemory, Outgoing, ShardId};

/// The configuration service, as a receiver.
const SERVICE: NodeId = 0;

/// LAST to the configuration service.
pub(crate) fn ask_last(shard: ShardId, out: &mut Vec<Outgoing>) -> Result<(), OutOfMemory>
    ensures ok { OnOk result (out.new.items ≡ out.old.items ++ to 0 (Last shard) ∷ []) }
    ensures err { OnErr result (out.new.items ≡ out.old.items) }
{
    let message = Message::Last { shard };
    Ok(out.push(Outgoing {
        to: SERVICE,
        message,
    })?)
}

/// AT to the configuration service.
pub(crate) fn ask_at(
    shard: ShardId,
    epoch: Epoch,
    out: &mut Vec<Outgoing>,
) -> Result<(), OutOfMemory>
    ensures ok { OnOk result (out.new.items ≡ out.old.items ++ to 0 (At shard epoch) ∷ []) }
    ensures err { OnErr result (out.new.items ≡ out.old.items) }
{
    let message = Message::At { shard, epoch };
    Ok(out.push(Outgoing {
        to: SERVICE,
        message,
    })?)
}

/// CAS to the configuration service.
pub(crate) fn propose(
    alloc: Global,
    config: &Config,
    out: &mut Vec<Outgoing>,
) -> Result<(), OutOfMemory>
    ensures ok { OnOk result (out.new.items ≡ out.old.items ++ to 0 (Cas config.now) ∷ []) }
    ensures err { OnErr result (out.new.items ≡ out.old.items) }
{
    let message = Message::Cas {
        config: config.copy(alloc)?,
    };
    Ok(out.push(Outgoing {
        to: SERVICE,
        message,
    })?)
}

/// PROBE to each member.
#[tactic(auto, unfolding(protocol::specs::Probing::probe))]
pub(crate) fn probe(
    epoch: Epoch,
    members: &[NodeId],
    out: &mut Vec<Outgoing>,
) -> Result<(), OutOfMemory>
    ensures ok { OnOk result (out.new.items ≡ out.old.items ++ probe epoch members.now) }
    ensures err { OnErr result ((more : List Sent) × (out.new.items ≡ out.old.items ++ more)) }
{
    'members: for member in members {
        out.push(Outgoing {
            to: *member,
            message: Message::Probe { epoch },
        })?;
    }
    Ok(())
}

/// NEW_CONFIG to the leader of a stored configuration, where this node proposed it.
#[tactic(auto, unfolding(protocol::specs::Probing::tell_leader, protocol::specs::Choices::when))]
pub(crate) fn tell_leader(
    alloc: Global,
    me: NodeId,
    stored: &Config,
    out: &mut Vec<Outgoing>,
) -> Result<(), OutOfMemory>
    ensures ok { OnOk result (out.new.items ≡ out.old.items ++ tell_leader me stored.now) }
    ensures err { OnErr result (out.new.items ≡ out.old.items) }
{
    if stored.by() != me {
        return Ok(());
    }
    let message = Message::NewConfig {
        config: stored.copy(alloc)?,
    };
    Ok(out.push(Outgoing {
        to: stored.leader(),
        message,
    })?)
}

/// What the stage waits for is asked again.
#[tactic(auto, unfolding(protocol::specs::Probing::ask_stage))]
pub(crate) fn ask_again(
    alloc: Global,
    stage: &Stage,
    out: &mut Vec<Outgoing>,
) -> Result<(), OutOfMemory>
    ensures ok { OnOk result (out.new.items ≡ out.old.items ++ ask_stage (stage_of stage.now)) }
    ensures err { OnErr result ((more : List Sent) × (out.new.items ≡ out.old.items ++ more)) }
{
    match stage {
        Stage::Idle => Ok(()),
        Stage::AskedLast { shard, .. } => ask_last(*shard, out),
        Stage::Probing { epoch, probed, .. } => probe(*epoch, probed.members(), out),
        Stage::AskedLower { shard, asked, .. } => ask_at(*shard, *asked, out),
        Stage::CasSent { config } => propose(alloc, config, out),
    }
}
