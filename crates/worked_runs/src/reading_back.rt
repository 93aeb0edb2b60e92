//! Traces, read line by line.

use std::alloc::Global;
use trace_text::{TraceFault, TraceItem, TraceReader};

/// Whether the last line of these is the last one of a trace.
///
/// # Errors
/// Where a line may not stand behind those before it, or memory runs out.
pub(crate) fn ends(alloc: Global, trace: &str) -> Result<bool, TraceFault> {
    let mut reader = TraceReader::new();
    let mut ended = false;
    for line in trace.lines() {
        ended = matches!(reader.take(alloc, line.as_bytes())?, TraceItem::End);
    }
    Ok(ended)
}
