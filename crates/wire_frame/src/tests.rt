use super::*;
use std::alloc::Global;
use std::process::Abort;
use std::test::Fail;
use tcs_terms::{Message, Why};

mod worked;

use worked::WORKED;

fn each_again(rt: &impl Abort, alloc: Global, frames: &[(u8, &str)]) -> Result<(), Fail> {
    let mut all = Vec::new(alloc);
    for (byte, text) in frames {
        let frame = hex::decode(alloc, *text)?;
        let message = decode(alloc, &frame)?;
        assert_eq!(rt; kind(&message), *byte, "{text}");
        let again = encode(alloc, &message)?;
        assert_eq!(rt; again.as_slice(), frame.as_slice(), "{text}");
        let held = all.len();
        encode_into(&message, &mut all)?;
        assert!(rt; all.get(held..) == Some(frame.as_slice()), "{text}");
    }
    Ok(())
}

/// Each frame of the worked runs is read, has its kind, and is spelled again.
#[test]
fn worked_frames(rt: HostRuntime) -> Result<(), Fail> {
    each_again(&rt, rt.alloc(), &WORKED)
}

fn expect_fault(rt: &impl Abort, alloc: Global, frame: &[u8], reason: FrameReason, place: usize) {
    let found = decode(alloc, frame);
    assert!(rt;
        matches!(found, Err(DecodeFault::Bad { reason: r, place: p }) if r == reason && p == place),
        "{frame:?}"
    );
}

fn each_fault(
    rt: &impl Abort,
    alloc: Global,
    faults: &[(&str, FrameReason, usize)],
) -> Result<(), Fail> {
    for (text, reason, place) in faults {
        let frame = hex::decode(alloc, *text)?;
        expect_fault(rt, alloc, &frame, *reason, *place);
    }
    Ok(())
}

/// The faults of worked calls.
#[test]
fn worked_faults(rt: HostRuntime) -> Result<(), Fail> {
    let faults = [
        ("", FrameReason::Short, 0),
        ("11", FrameReason::Short, 1),
        ("12", FrameReason::Kind, 0),
        ("0b11", FrameReason::Range, 1),
        ("0f01000000010000", FrameReason::Trailing, 7),
        // Names that do not ascend.
        (
            "01000000010100000001010101000000000000000102016200000000000000000161",
            FrameReason::Order,
            32,
        ),
    ];
    each_fault(&rt, rt.alloc(), &faults)
}

/// A frame with one byte changed.
fn changed(alloc: Global, text: &str, place: usize, byte: u8) -> Result<Vec<u8>, Fail> {
    let mut frame = hex::decode(alloc, text)?;
    if let Some(cell) = frame.get_mut(place) {
        *cell = byte;
    }
    Ok(frame)
}

/// A place, the byte that is put there, and the fault that this makes.
type Change = (usize, u8, FrameReason, usize);

fn each_changed(
    rt: &impl Abort,
    alloc: Global,
    text: &str,
    changes: &[Change],
) -> Result<(), Fail> {
    for (at, byte, reason, place) in changes {
        let frame = changed(alloc, text, *at, *byte)?;
        expect_fault(rt, alloc, &frame, *reason, *place);
    }
    Ok(())
}

/// One byte of the PREPARE of a run with one commit is changed; the faults are counted by hand.
#[test]
fn changed_prepare(rt: HostRuntime) -> Result<(), Fail> {
    let prepare = "01000000010100000001010101000000000000000101016100000000000000000101610105";
    let numbers = [
        // An epoch of 0; a node 0 and 65; a number 0; no shard, and shard 17; a tag that is none.
        (4, 0, FrameReason::Range, 1),
        (5, 0, FrameReason::Range, 5),
        (5, 65, FrameReason::Range, 5),
        (9, 0, FrameReason::Range, 6),
        (10, 0, FrameReason::Range, 10),
        (11, 17, FrameReason::Range, 11),
        (12, 2, FrameReason::Range, 12),
    ];
    each_changed(&rt, rt.alloc(), prepare, &numbers)?;
    let payload = [
        // A commit version of 0; no reads, 17 of them, and 17 beside ranges.
        (20, 0, FrameReason::Range, 13),
        (21, 0, FrameReason::Range, 21),
        (21, 17, FrameReason::Range, 21),
        (21, 49, FrameReason::Range, 21),
        // A name without bytes, with 33, and with a capital letter; a version that is not below the commit version.
        (22, 0, FrameReason::Range, 22),
        (22, 33, FrameReason::Range, 22),
        (23, 65, FrameReason::Range, 23),
        (31, 1, FrameReason::Range, 24),
        // 17 writes; a write of what is not read; a value of 65 bytes.
        (32, 17, FrameReason::Range, 32),
        (34, 98, FrameReason::Unread, 33),
        (35, 65, FrameReason::Range, 35),
    ];
    each_changed(&rt, rt.alloc(), prepare, &payload)
}

/// One byte of messages with rows is changed; the faults are counted by hand.
#[test]
fn changed_states(rt: HostRuntime) -> Result<(), Fail> {
    let state =
        "090100000002020203020300010001030000000101010000000000000000010101610000000000000000010161010500";
    let one_row = [
        // Members: none, eight, one out of range, one that does not ascend; a leader beside them; a proposer 65.
        (6, 0, FrameReason::Range, 6),
        (6, 8, FrameReason::Range, 6),
        (7, 65, FrameReason::Range, 7),
        (8, 2, FrameReason::Order, 8),
        (9, 4, FrameReason::Range, 9),
        (10, 65, FrameReason::Range, 10),
        // 4,097 rows; a slot 0; a vote and a mark that are none.
        (11, 16, FrameReason::Range, 11),
        (14, 0, FrameReason::Range, 13),
        (22, 3, FrameReason::Range, 22),
        (47, 3, FrameReason::Range, 47),
    ];
    each_changed(&rt, rt.alloc(), state, &one_row)?;
    // A slot and a transaction that stood before.
    let two_rows =
        "090100000002020203020300020001030000000101010000000000000000010101610000000000000000010161010500000203000000020101020000";
    let second_row = [
        (49, 1, FrameReason::Order, 48),
        (54, 1, FrameReason::Order, 50),
    ];
    each_changed(&rt, rt.alloc(), two_rows, &second_row)?;
    // The slot before the rest of the row: its transaction has no home.
    let no_home =
        "090100000002020203020300020001030000000101010000000000000000010101610000000000000000010161010500000200000000020101020000";
    let slot = [(49, 1, FrameReason::Order, 48)];
    each_changed(&rt, rt.alloc(), no_home, &slot)?;
    // A piece 0 and 172, fewer pieces than its number, 172 pieces, 25 rows.
    let piece =
        "11010000000202020302030001000100010001010000000101010000000000000000010101610000000000000000010161010500";
    let numbers = [
        (12, 0, FrameReason::Range, 11),
        (12, 172, FrameReason::Range, 11),
        (12, 2, FrameReason::Range, 13),
        (14, 172, FrameReason::Range, 13),
        (16, 25, FrameReason::Range, 15),
    ];
    each_changed(&rt, rt.alloc(), piece, &numbers)
}

/// One byte of other messages is changed; the faults are counted by hand.
#[test]
fn changed_others(rt: HostRuntime) -> Result<(), Fail> {
    // No range, four of them, an empty one, and one seen at the commit version.
    let ranges = "010000000101000000020101010000000000000001200101610163000000000000000000";
    let parts = [
        (22, 0, FrameReason::Range, 22),
        (22, 4, FrameReason::Range, 22),
        (26, 97, FrameReason::Order, 25),
        (34, 1, FrameReason::Range, 27),
    ];
    each_changed(&rt, rt.alloc(), ranges, &parts)?;
    let decision = [
        (12, 0, FrameReason::Range, 12),
        (12, 3, FrameReason::Range, 12),
    ];
    each_changed(&rt, rt.alloc(), "05000000010001010000000101", &decision)?;
    let refused = [
        (1, 0, FrameReason::Range, 1),
        (1, 18, FrameReason::Range, 1),
        (2, 4, FrameReason::Range, 2),
    ];
    each_changed(&rt, rt.alloc(), "10090100000003", &refused)?;
    let outcome = [(6, 2, FrameReason::Range, 6), (8, 3, FrameReason::Range, 8)];
    each_changed(&rt, rt.alloc(), "0f01000000030101010100000001", &outcome)
}

fn cut_each_way(rt: &impl Abort, alloc: Global, frames: &[&str]) -> Result<(), Fail> {
    for text in frames {
        let mut frame = hex::decode(alloc, *text)?;
        for n in 0..frame.len() {
            expect_fault(rt, alloc, &frame[..n], FrameReason::Short, n);
        }
        let whole = frame.len();
        frame.push(0)?;
        expect_fault(rt, alloc, &frame, FrameReason::Trailing, whole);
        let other = changed(alloc, text, 0, 0)?;
        expect_fault(rt, alloc, &other, FrameReason::Kind, 0);
    }
    Ok(())
}

/// Each beginning of a frame is short at its length, a byte more trails, and no kind is 0.
#[test]
fn cut_and_continued(rt: HostRuntime) -> Result<(), Fail> {
    let frames = [
        "01000000010100000001010101000000000000000101016100000000000000000101610105",
        "02010000000100010100000001010100000000000000000101016100000000000000000101610105",
        "05000000010001010000000101",
        "0f010000000100",
        "090100000002020203020300010001030000000101010000000000000000010101610000000000000000010161010500",
    ];
    cut_each_way(&rt, rt.alloc(), &frames)
}

/// A refusal of a worked call.
#[test]
fn worked_refusal(rt: HostRuntime) -> Result<(), Fail> {
    let frame = [0x10, 9, 1, 0, 0, 0, 3];
    assert!(rt;
        matches!(
            decode(rt.alloc(), &frame),
            Ok(Message::Refused {
                kind: 9,
                why: Why::Stale,
                mark: 3
            })
        )
    );
    Ok(())
}
