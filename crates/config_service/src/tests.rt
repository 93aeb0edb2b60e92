//! Messages to the service as they stand in worked runs, what it sends, and what becomes of proposals.
ghost use Rattle.std.specs.Prelude.{◌≡◌, IfOk};
ghost use Rattle.config_service.specs.Firsts.{AreFirsts};

use super::*;
use std::alloc::Global;
use std::process::Abort;
use std::test::Fail;
use tcs_terms::{Config, Handled, NodeId};
use wire_frame::{decode, encode};

/// A frame from a node, what it comes to, and the frames that the service sends.
#[derive(Drop)]
struct Row<'a> {
    from: NodeId,
    frame: &'a str,
    answer: Handled,
    sends: &'a [(NodeId, &'a str)],
}

/// Shard 1 has members 1 and 2, and node 1 leads.
fn firsts(alloc: Global) -> Result<Vec<Config>, Fail>
    ensures { IfOk result (λ configs. AreFirsts configs.items) }
{
    let config = Config::build(1, 1, vec![in alloc; 1, 2]?, 1, 0)?;
    Ok(vec![in alloc; config]?)
}

fn serve_row(
    rt: &impl Abort,
    alloc: Global,
    service: &mut ConfigService,
    row: &Row<'_>,
) -> Result<(), Fail> {
    let message = decode(alloc, &hex::decode(alloc, row.frame)?)?;
    let mut out = Vec::new(alloc);
    let handled = service.serve(alloc, 3, row.from, &message, &mut out)?;
    assert_eq!(rt; handled, row.answer, "{}", row.frame);
    assert_eq!(rt; out.len(), row.sends.len(), "{}", row.frame);
    for (sent, (to, frame)) in out.iter().zip(row.sends) {
        assert_eq!(rt; sent.to, *to, "{frame}");
        let spelled = hex::encode(alloc, encode(alloc, &sent.message)?)?;
        assert_eq!(rt; spelled.as_str(), *frame);
    }
    Ok(())
}

/// Two nodes propose the next epoch: the first is stored, and both hear of it. An epoch that is not the next one is held
/// back, and the epoch before is still answered.
#[test]
fn an_epoch_is_stored_once(rt: HostRuntime) -> Result<(), Fail> {
    let alloc = rt.alloc();
    let mut service = ConfigService::build(alloc, firsts(alloc)?)?;
    let rows = [
        Row {
            from: 2,
            frame: "0b01",
            answer: Handled::Acted,
            sends: &[(2, "0e01000000010201020100")],
        },
        Row {
            from: 2,
            frame: "0d01000000020201030102",
            answer: Handled::Acted,
            sends: &[
                (2, "0e01000000020201030102"),
                (1, "0a01000000020201030102"),
                (2, "0a01000000020201030102"),
                (3, "0a01000000020201030102"),
            ],
        },
        Row {
            from: 3,
            frame: "0d01000000020201030103",
            answer: Handled::Acted,
            sends: &[(3, "0e01000000020201030102")],
        },
        Row {
            from: 3,
            frame: "0d01000000040201030103",
            answer: Handled::Held(2),
            sends: &[(3, "100d0200000002")],
        },
        Row {
            from: 2,
            frame: "0c0100000001",
            answer: Handled::Acted,
            sends: &[(2, "0e01000000010201020100")],
        },
    ];
    for row in &rows {
        serve_row(&rt, alloc, &mut service, row)?;
    }
    assert_eq!(rt; service.configs().len(), 2);
    assert_eq!(rt; service.last(1).map(|config| config.by()), Some(2));
    assert_eq!(rt; service.at(1, 1).map(|config| config.by()), Some(0));
    Ok(())
}

/// Only the next epoch of a shard of the run is stored, and once.
#[test]
fn a_proposal_has_three_answers(rt: HostRuntime) -> Result<(), Fail> {
    let alloc = rt.alloc();
    let mut service = ConfigService::build(alloc, firsts(alloc)?)?;
    for (shard, epoch, answer) in [
        (1, 3, CasAnswer::Ahead(1)),
        (1, 2, CasAnswer::Stored),
        (1, 2, CasAnswer::Already),
        (2, 1, CasAnswer::Ahead(0)),
    ] {
        let config = Config::build(shard, epoch, vec![in alloc; 1, 3]?, 1, 2)?;
        assert_eq!(rt;
            service.cas(config)?,
            answer,
            "shard {shard}, epoch {epoch}"
        );
    }
    assert_eq!(rt; service.configs().len(), 2);
    Ok(())
}
