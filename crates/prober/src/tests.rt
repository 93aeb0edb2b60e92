//! Moves of shard 1 by node 2, which wants node 3 beside the leader.
use super::*;
use std::alloc::Global;
use std::test::Fail;
use tcs_terms::{Config, OutOfMemory, Outgoing, Wanted};

/// Whether the prober goes on with a stored configuration; its shard's view has epoch 1.
fn goes_on(
    prober: &mut Prober,
    alloc: Global,
    stored: &Config,
    sent: &mut Vec<Outgoing>,
) -> Result<bool, OutOfMemory> {
    let awaited = prober.awaits(stored, 1);
    if awaited {
        prober.on_stored(alloc, 2, stored, sent)?;
    }
    Ok(awaited)
}

/// A prober that probes the members of the last configuration.
fn probing(alloc: Global, last: &Config, sent: &mut Vec<Outgoing>) -> Result<Prober, OutOfMemory> {
    let want = Wanted::build(vec![in alloc; 3]?);
    let mut prober = Prober::new();
    prober.start_move(1, want, sent)?;
    goes_on(&mut prober, alloc, last, sent)?;
    Ok(prober)
}

fn text(alloc: Global, sent: &[Outgoing]) -> Result<String, Fail> {
    Ok(format!(in alloc; "{sent:?}")?)
}

#[test]
fn members_of_the_last_configuration_are_probed(rt: HostRuntime) -> Result<(), Fail> {
    let alloc = rt.alloc();
    let mut sent = Vec::new(alloc);
    let last = Config::build(1, 2, vec![in alloc; 1, 3]?, 1, 3)?;
    let prober = probing(alloc, &last, &mut sent)?;
    assert_eq!(rt; prober.mark(), 3);
    assert_eq!(rt; text(alloc, &sent)?.as_str(), PROBES);
    Ok(())
}

const PROBES: &str = concat!(
    "[Outgoing { to: 0, message: Last { shard: 1 } }, ",
    "Outgoing { to: 1, message: Probe { epoch: 3 } }, ",
    "Outgoing { to: 3, message: Probe { epoch: 3 } }]",
);

/// A member that never reached the epoch of the last configuration answers.
#[test]
fn a_low_answer_leads_down(rt: HostRuntime) -> Result<(), Fail> {
    let alloc = rt.alloc();
    let mut sent = Vec::new(alloc);
    let last = Config::build(1, 2, vec![in alloc; 1, 3]?, 1, 3)?;
    let mut prober = probing(alloc, &last, &mut sent)?;
    sent.clear();
    prober.on_probe_ack(alloc, 2, 3, 3, 0, &mut sent)?;
    prober.lower(&mut sent)?;
    prober.ask(alloc, &mut sent)?;
    assert_eq!(rt; text(alloc, &sent)?.as_str(), LOWER_TWICE);
    Ok(())
}

const LOWER_TWICE: &str = concat!(
    "[Outgoing { to: 0, message: At { shard: 1, epoch: 1 } }, ",
    "Outgoing { to: 0, message: At { shard: 1, epoch: 1 } }]",
);

#[test]
fn a_leader_is_proposed_and_told(rt: HostRuntime) -> Result<(), Fail> {
    let alloc = rt.alloc();
    let mut sent = Vec::new(alloc);
    let last = Config::build(1, 1, vec![in alloc; 1, 2]?, 1, 0)?;
    let mut prober = probing(alloc, &last, &mut sent)?;
    sent.clear();
    prober.on_probe_ack(alloc, 2, 1, 2, 1, &mut sent)?;
    let stored = Config::build(1, 2, vec![in alloc; 1, 3]?, 1, 2)?;
    goes_on(&mut prober, alloc, &stored, &mut sent)?;
    assert_eq!(rt; text(alloc, &sent)?.as_str(), PROPOSED_AND_TOLD);
    Ok(())
}

const PROPOSED_AND_TOLD: &str = concat!(
    "[Outgoing { to: 0, message: Cas { config: ",
    "Config { shard: 1, epoch: 2, members: [1, 3], leader: 1, by: 2 } } }, ",
    "Outgoing { to: 1, message: NewConfig { config: ",
    "Config { shard: 1, epoch: 2, members: [1, 3], leader: 1, by: 2 } } }]",
);
