ghost use Rattle.std.specs.Prelude.{◌<◌};

use super::*;
use std::alloc::Global;
use std::process::Abort;
use std::test::Fail;
use tcs_terms::{Config, Entry, Mark, Message, Outgoing, Row, Rows, ShardSet, TxId, Version, Vote};

/// The rows of the first transactions of node 1, each in the slot of its number.
fn rows_to(alloc: Global, last: u16) -> Result<Rows, Fail>
    requires { last < 1000 }
{
    let mut list = Vec::new(alloc);
    for slot in 1..last + 1 {
        let entry = Entry {
            slot,
            txn: TxId {
                home: 1,
                seq: u32::from(slot),
            },
            shards: ShardSet::build(vec![in alloc; 1]?)?,
            payload: None,
            vote: Vote::Lost,
        };
        list.push(Row {
            entry,
            mark: Mark::Undecided,
        })?;
    }
    Ok(Rows::build(list)?)
}

/// What is gathered with a piece that was sent.
fn gathered(
    rt: &impl Abort,
    alloc: Global,
    before: Option<Gathering>,
    sent: &Outgoing,
) -> Result<Gathering, Fail> {
    match &sent.message {
        Message::StatePiece {
            config,
            piece,
            pieces,
            rows,
        } => {
            let piece = StatePiece {
                number: *piece,
                pieces: *pieces,
                rows: rows.copy(alloc)?,
            };
            assert!(rt; takes_piece(&before, config, &piece));
            assert!(rt; 1 <= piece.number && piece.number <= piece.pieces);
            Ok(gather(alloc, before, config, piece)?)
        }
        _ => panic!(rt; "a piece of a state"),
    }
}

/// 25 rows are sent in a piece of 24 and one of 1. They are gathered with the second one first, and twice.
#[test]
fn a_state_in_two_pieces(rt: HostRuntime) -> Result<(), Fail> {
    let alloc = rt.alloc();
    let config = Config::build(1, 2, vec![in alloc; 1, 3]?, 1, 3)?;
    let rows = rows_to(alloc, 25)?;
    let sizes = [1, 2, 3].map(|number| piece(rows.list(), number).len());
    assert_eq!(rt; (piece_count(rows.list()), sizes), (2, [24, 1, 0]));

    let mut sent = Vec::new(alloc);
    send_states(alloc, Version::Two, &config, rows.list(), &mut sent)?;
    match sent.as_slice() {
        [first, second] => {
            assert_eq!(rt; (first.to, second.to), (3, 3));
            let half = gathered(&rt, alloc, None, second)?;
            let half = gathered(&rt, alloc, Some(half), second)?;
            assert!(rt; !half.is_whole());
            let whole = gathered(&rt, alloc, Some(half), first)?;
            assert!(rt; whole.is_whole());
            let all = whole.into_rows(alloc)?;
            assert!(rt; all.iter().map(|row| row.entry.slot).eq(1..26));
        }
        _ => panic!(rt; "two pieces"),
    }
    Ok(())
}

/// A state of one row is one message under either version. Its piece is kept for its own epoch, and not for a later one.
#[test]
fn a_state_in_one_message(rt: HostRuntime) -> Result<(), Fail> {
    let alloc = rt.alloc();
    let config = Config::build(1, 2, vec![in alloc; 2, 3]?, 2, 3)?;
    let rows = rows_to(alloc, 1)?;
    let mut sent = Vec::new(alloc);
    send_state(alloc, Version::One, &config, rows.list(), 3, &mut sent)?;
    send_state(alloc, Version::Two, &config, rows.list(), 3, &mut sent)?;
    match sent.as_slice() {
        [whole, only] => {
            assert!(rt;
                matches!(&whole.message, Message::NewState { rows, .. } if rows.list().len() == 1)
            );
            let mut gathering = Some(gathered(&rt, alloc, None, only)?);
            drop_below(&mut gathering, 2);
            assert!(rt;
                matches!(&gathering, Some(state) if state.is_whole() && state.config().epoch() == 2)
            );
            drop_below(&mut gathering, 3);
            assert!(rt; gathering.is_none());
        }
        _ => panic!(rt; "two messages"),
    }
    Ok(())
}
