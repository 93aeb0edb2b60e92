//! The laws of the lines of a trace.
ghost use Rattle.std.specs.Prelude.{◌≡◌, ◌==◌, false, List, ℕ, ◌++◌, map, Some};
ghost use Rattle.std.specs.List.{flat_map, list_any};
ghost use Rattle.trace_text.specs.Lines.{Line, EventLine, NoteLine, Standing, IsStanding, MayStand, line_text, printed, at_start};
ghost use Rattle.trace_text.specs.Readings.{line_in};
ghost use Rattle.trace_text.specs.Traces.{Trace, Happening, IsTrace, message_lines, event_lines, trace_lines, trace_items, read_lines, at_end};

/// A line is read from its text where it may stand, and only lines that may stand there are read.
pub fn one_reading()
    ensures again { (s : Standing) (line : Line) → IsStanding s → MayStand s line → line_in s (line_text line) ≡ Some line }
    ensures only { (s : Standing) (text : List ℕ) (line : Line) → line_in s text ≡ Some line → MayStand s line × (text ≡ line_text line) }
{}

/// No line of a trace has a line feed in it.
pub fn no_feed_inside()
    ensures { (s : Standing) (line : Line) → IsStanding s → MayStand s line → list_any (λ b. b == 10) (line_text line) ≡ false }
{}

/// The lines of a trace are read one by one to its end, and give its rule and shards, its events with their notes in
/// order, its messages, and its order of commits.
pub fn traces_are_read()
    ensures { (t : Trace) → IsTrace t → read_lines at_start (map line_text (trace_lines t)) ≡ Some (trace_items t, at_end t) }
{}

/// The lines of an event are those of its result and its notes, as `print_happening` appends them, and those of its
/// messages.
pub fn happenings_are_printed()
    ensures { (k number : ℕ) (h : Happening) → flat_map printed (event_lines k number h)
        ≡ printed (EventLine k h.result) ++ flat_map (λ note. printed (NoteLine note)) h.notes ++ flat_map printed (message_lines number h.sends) }
{}
