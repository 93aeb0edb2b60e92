use crate::{Monitor, Proposal};
use std::alloc::Global;
use std::test::Fail;
use tcs_terms::{Config, Epoch, Event, Input, Message, NodeId, Outgoing, Rule, Setup, ShardId};

// Nodes 1 to 3 are of shard 1, whose members are 1 and 2; nodes 4 and 5 are those of shard 2.
fn setup(alloc: Global) -> Result<Setup, Fail> {
    let mut configs = Vec::new(alloc);
    configs.push(config(alloc, 1, 1, &[1, 2])?)?;
    configs.push(config(alloc, 2, 1, &[4, 5])?)?;
    Ok(Setup::build(Rule::Serial, 2, [1, 1, 1, 2, 2].to_vec(alloc)?, configs)?)
}

fn config(alloc: Global, shard: ShardId, epoch: Epoch, members: &[NodeId]) -> Result<Config, Fail> {
    let leader = members.first().copied().unwrap_or(0);
    Ok(Config::build(shard, epoch, Vec::from_slice(alloc, members)?, leader, 0)?)
}

// Each of these sends a message to a node.
fn tell(alloc: Global, monitor: &mut Monitor, sent: &[(NodeId, NodeId)]) -> Result<(), Fail> {
    let mut letters = Vec::new(alloc);
    for (from, to) in sent {
        let message = Message::Probe { epoch: 1 };
        letters.push((*from, Outgoing { to: *to, message }))?;
    }
    monitor.saw(&letters);
    Ok(())
}

// The node, the shard and the wanted nodes of a move, the member that is missed, and its count.
fn move_of(proposal: &Option<Proposal>) -> Option<(NodeId, ShardId, &[NodeId], NodeId, u32)> {
    match proposal {
        Some(
            Proposal {
                event: Event::Call {
                    node,
                    input: Input::Move { shard, want },
                },
                missed,
                count,
            },
        ) => Some((*node, *shard, want.list(), *missed, *count)),
        _ => None,
    }
}

#[test]
fn a_missing_member_is_replaced(rt: HostRuntime) -> Result<(), Fail> {
    let alloc = rt.alloc();
    let mut monitor = Monitor::new(alloc, &setup(alloc)?, 3)?;
    for want in [None, None, Some((2, 1, [2, 3].as_slice(), 1, 3)), None] {
        tell(alloc, &mut monitor, &[(3, 1)])?;
        assert_eq!(rt; move_of(&monitor.propose()?), want);
    }
    Ok(())
}

#[test]
fn shards_members_and_spares_have_their_order(rt: HostRuntime) -> Result<(), Fail> {
    let alloc = rt.alloc();
    let mut monitor = Monitor::new(alloc, &setup(alloc)?, 2)?;
    let late = [
        (9, 4),
        (9, 4),
        (9, 2),
        (9, 2),
        (9, 1),
        (9, 0),
        (9, 64),
        (5, 5),
    ];
    tell(alloc, &mut monitor, &late)?;
    for want in [
        Some((3, 1, [1, 3].as_slice(), 2, 2)),
        Some((5, 2, [5].as_slice(), 4, 2)),
        None,
    ] {
        assert_eq!(rt; move_of(&monitor.propose()?), want);
    }
    Ok(())
}

#[test]
fn the_newest_configuration_is_taken(rt: HostRuntime) -> Result<(), Fail> {
    let alloc = rt.alloc();
    let mut monitor = Monitor::new(alloc, &setup(alloc)?, 1)?;
    for (shard, epoch, member) in [(1, 3, 3), (1, 2, 2), (9, 2, 2)] {
        let message = Message::ConfigChange {
            config: config(alloc, shard, epoch, &[member])?,
        };
        monitor.saw(&[(0, Outgoing { to: 0, message })]);
    }
    for (late, want) in [(2, None), (3, Some((1, 1, [1].as_slice(), 3, 1)))] {
        tell(alloc, &mut monitor, &[(5, late)])?;
        assert_eq!(rt; move_of(&monitor.propose()?), want);
    }
    Ok(())
}
