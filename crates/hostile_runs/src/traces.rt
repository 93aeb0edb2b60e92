//! Fronts of a trace.

/// The lines of a schedule, feeds included, that are whole in its first bytes.
pub(crate) fn whole_lines(bytes: &[u8]) -> usize {
    bytes.iter().filter(|byte| **byte == b'\n').count()
}

/// Whether a line of a trace begins what belongs to an event, or to the end.
fn begins_a_part(line: &[u8]) -> bool {
    matches!(line, [b'e', b' ', ..] | [b'o', b'r', b'd', b'e', b'r', ..])
}

/// What a trace has before the part of this number, from 0: its head and the parts of so many events.
pub(crate) fn front(trace: &[u8], parts: usize) -> &[u8] {
    let mut seen: usize = 0;
    for (place, byte) in trace.iter().enumerate() {
        if *byte != b'\n' {
            continue;
        }
        let (before, next) = trace.split_at(place + 1);
        if begins_a_part(next) {
            if seen == parts {
                return before;
            }
            seen = seen.saturating_add(1);
        }
    }
    trace
}
