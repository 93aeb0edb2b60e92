//! How many bytes a message takes, so that its frame is written into one buffer that does not grow.

use tcs_terms::{Entry, Message, Payload, RangePart, ReadPart, Row, WritePart};

/// Each message but those with rows or a payload has at most this many bytes without them: the longest has 7 members,
/// 16 shards or 2 transactions.
const FIXED: usize = 48;

fn reads_room(reads: &[ReadPart]) -> usize {
    let mut room = 0usize;
    for read in reads {
        room = room.saturating_add(9 + read.name.bytes().len());
    }
    room
}

fn ranges_room(ranges: &[RangePart]) -> usize {
    let mut room = 0usize;
    for range in ranges {
        room = room.saturating_add(10 + range.from.bytes().len() + range.upto.bytes().len());
    }
    room
}

fn writes_room(writes: &[WritePart]) -> usize {
    let mut room = 0usize;
    for write in writes {
        room = room.saturating_add(2 + write.name.bytes().len() + write.value.bytes().len());
    }
    room
}

fn payload_room(payload: &Payload) -> usize {
    11usize
        .saturating_add(reads_room(payload.reads()))
        .saturating_add(ranges_room(payload.ranges()))
        .saturating_add(writes_room(payload.writes()))
}

fn kept_room(payload: &Option<Payload>) -> usize {
    match payload {
        None => 0,
        Some(payload) => payload_room(payload),
    }
}

/// An entry without its payload has 2 bytes of slot, 5 of transaction, at most 17 of shards and 6 of vote.
fn entry_room(entry: &Entry) -> usize {
    30usize.saturating_add(kept_room(&entry.payload))
}

fn rows_room(rows: &[Row]) -> usize {
    let mut room = FIXED;
    for row in rows {
        room = room
            .saturating_add(1)
            .saturating_add(entry_room(&row.entry));
    }
    room
}

/// As many bytes as the frame of the message has, or a few more.
pub fn room_of(message: &Message) -> usize {
    match message {
        Message::Prepare { payload, .. } => FIXED.saturating_add(kept_room(payload)),
        Message::PrepareAck { entry, .. } | Message::Accept { entry, .. } => {
            FIXED.saturating_add(entry_room(entry))
        }
        Message::NewState { rows, .. } | Message::StatePiece { rows, .. } => rows_room(rows.list()),
        _ => FIXED,
    }
}
