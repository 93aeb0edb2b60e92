use super::*;
use std::test::Fail;
use tcs_terms::{Handled, Message, Outgoing, Why};

#[test]
fn an_epoch_below_the_mark_is_stale(rt: HostRuntime) -> Result<(), Fail> {
    for (epoch, mark, answer) in [
        (0, 0, Handled::Held(0)),
        (2, 3, Handled::Stale(3)),
        (3, 3, Handled::Held(3)),
        (4, 3, Handled::Held(3)),
    ] {
        assert_eq!(rt; refusal(epoch, mark), answer, "{epoch} against {mark}");
    }
    Ok(())
}

/// The notice of a prepare that a full log refuses has the number that the receiver promised.
#[test]
fn a_full_log_is_told(rt: HostRuntime) -> Result<(), Fail> {
    let mut sent = Vec::new(rt.alloc());
    notify(Handled::Acted, 2, 1, 7, &mut sent)?;
    assert!(rt; sent.is_empty());
    notify(Handled::Full, 2, 1, 7, &mut sent)?;
    match sent.as_slice() {
        [
            Outgoing {
                to,
                message: Message::Refused { kind, why, mark },
            },
        ] => {
            assert_eq!(rt; (*to, *kind, *why, *mark), (2, 1, Why::Full, 7));
        }
        _ => panic!(rt; "one notice"),
    }
    Ok(())
}
