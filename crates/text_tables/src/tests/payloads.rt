//! The texts of payloads, transactions, kinds and faults; and which events fit a setup.

use std::alloc::Global;
use std::test::Fail;
use tcs_terms::{Config, Event, Input, Kind, Rule, Setup, TxId, Wanted, is_among};
use text_words::{print_payload, put_txn, read_payload};

/// A payload's text as it is printed again after a copy.
fn again(alloc: Global, text: &[u8]) -> Result<Vec<u8>, Fail> {
    let payload = read_payload(alloc, text, 2)?.copy(alloc)?;
    let mut out = Vec::new(alloc);
    print_payload(&payload, &mut out)?;
    Ok(out)
}

#[test]
fn texts(rt: HostRuntime) -> Result<(), Fail> {
    let alloc = rt.alloc();
    let text = b"v 7 r a 0 r b 6 q c d 1 w a - w b 00ff".as_slice();
    assert_eq!(rt; again(alloc, text)?.as_slice(), text);
    let Err(fault) = read_payload(alloc, b"v 1 r a 0 r a 0", 1) else {
        return Err("a fault".into());
    };
    assert_eq!(rt; format!(in alloc; "{fault}")?.as_str(), "word 7: order");
    let mut txn = Vec::new(alloc);
    put_txn(&mut txn, TxId { home: 3, seq: 12 })?;
    assert_eq!(rt; txn.as_slice(), b"3.12".as_slice());
    assert_eq!(rt; Kind::Outcome.word(), "OUTCOME");
    Ok(())
}

fn setup(alloc: Global) -> Result<Setup, Fail> {
    let config = Config::build(1, 1, vec![in alloc; 1, 2]?, 1, 0)?;
    let nodes = vec![in alloc; 1, 1]?;
    let configs = vec![in alloc; config]?;
    Ok(Setup::build(Rule::Serial, 1, nodes, configs)?)
}

/// Whether an input fits as a call of node 2, and whether it is in range.
fn tests_of(alloc: Global, setup: &Setup, input: Input) -> Result<(bool, bool), Fail> {
    let in_range = input.in_range();
    let event = Event::Call { node: 2, input }.copy(alloc)?;
    Ok((setup.fits(&event), in_range))
}

#[test]
fn events_of_a_setup(rt: HostRuntime) -> Result<(), Fail> {
    let alloc = rt.alloc();
    let setup = setup(alloc)?.copy(alloc)?;
    for (shard, want) in [(1, (true, true)), (2, (false, true)), (17, (false, false))] {
        assert_eq!(rt; tests_of(alloc, &setup, Input::Ask(shard))?, want);
    }
    for (node, want) in [(2, (true, true)), (3, (false, true)), (65, (false, false))] {
        let want_node = Wanted::build(vec![in alloc; node]?);
        let moved = Input::Move {
            shard: 1,
            want: want_node,
        };
        assert_eq!(rt; tests_of(alloc, &setup, moved)?, want);
    }
    assert!(rt; is_among(&[1, 3], 3));
    assert!(rt; !is_among(&[1, 3], 2));
    Ok(())
}
