//! The laws of the text of a schedule: what is printed is read as it was, and what is read is what would be printed.
ghost use Rattle.std.specs.Prelude.{◌≡◌, ◌⊎◌, ◌≤◌, ◌+◌, ℕ, List, [], ◌∷◌, ◌++◌, length, Ok, Err};
ghost use Rattle.std.specs.List.{AllByRecursion};
ghost use Rattle.tcs_terms.specs.declared.inputs.Event.{Event};
ghost use Rattle.text_words.specs.declared.words.Reason.{Reason};
ghost use Rattle.tcs_terms.specs.declared.limits.TheConstants.{MAX_NODES, MAX_SHARDS};
ghost use Rattle.tcs_terms.specs.Runs.{MayStand};
ghost use Rattle.tcs_terms.specs.Setups.{Deployment};
ghost use Rattle.schedule_text.specs.declared.limits.TheConstants.{EVENT_LIMIT};
ghost use Rattle.schedule_text.specs.declared.lines.Got.TheVariants.{Whole};
ghost use Rattle.schedule_text.specs.declared.places.Place.TheVariants.{Events, Ended};
ghost use Rattle.schedule_text.specs.declared.reader.LineItem.{LineItem};
ghost use Rattle.schedule_text.specs.declared.script.ScriptForm.{ScriptForm};
ghost use Rattle.schedule_text.specs.declared.script.ScriptItem.{ScriptItem};
ghost use Rattle.schedule_text.specs.Lines.{IsLine};
ghost use Rattle.schedule_text.specs.Text.{schedule_lines};
ghost use Rattle.schedule_text.specs.Schedules.{Progress, at_start, line_reading};
ghost use Rattle.schedule_text.specs.Bytes.{IsText, Taken, FirstBad, HasText, HasFirstBad, events_on};
ghost use Rattle.schedule_text.specs.Scripts.{ScriptProgress, script_start};
ghost use Rattle.schedule_text.specs.ScriptText.{ScriptStep, script_lines, IsScript, script_reads, script_items, script_at_end, IsScriptRead};
ghost use Rattle.schedule_text.specs.Whole.{IsSchedule, IsRead, Begins, reads, schedule_items, at_end};

/// The lines of a schedule are read as its setup and its events, in order.
pub fn what_is_printed_is_read()
    ensures { (d : Deployment) (es : List Event) → IsSchedule d es → reads at_start (schedule_lines d es) ≡ Ok (schedule_items d es, at_end d (length es)) }
{}

/// Lines that are read to the end are those of a schedule, with the setup and the events that were read.
pub fn what_is_read_is_printed()
    ensures { (lines : List (List ℕ)) (is : List LineItem) (p : Progress) → reads at_start lines ≡ Ok (is, p) → p.head.place ≡ Ended → IsRead p.head.setup p.count lines is }
{}

/// No schedule goes on with a line that is refused: where lines are read and the next one is not, no schedule begins
/// with these lines and that one.
pub fn what_is_refused_begins_no_schedule()
    ensures { (lines : List (List ℕ)) (is : List LineItem) (p : Progress) (line : List ℕ) (reason : Reason) (d : Deployment) (es : List Event) (more : List (List ℕ))
        → reads at_start lines ≡ Ok (is, p) → line_reading p Whole line ≡ Err reason → IsSchedule d es → schedule_lines d es ≡ lines ++ line ∷ more → ⊥ }
{}

/// No two schedules have the same lines.
pub fn one_schedule()
    ensures { (d e : Deployment) (es fs : List Event) → IsSchedule d es → IsSchedule e fs → schedule_lines d es ≡ schedule_lines e fs → (d ≡ e) × (es ≡ fs) }
{}

/// Lines that are read past the line `events`, but not to the end, begin a schedule.
pub fn what_is_read_begins_a_schedule()
    ensures { (lines : List (List ℕ)) (is : List LineItem) (p : Progress) → reads at_start lines ≡ Ok (is, p) → p.head.place ≡ Events → Begins p.head.setup lines }
{}

/// No line of a schedule has a line feed, and none is too long for a line.
pub fn every_line_is_one()
    ensures { (d : Deployment) (es : List Event) → IsSchedule d es → AllByRecursion IsLine (schedule_lines d es) }
{}

/// The lines of a schedule's text are taken one after the other, and nothing stands behind the last of them.
pub fn a_text_is_taken()
    ensures { (bytes : List ℕ) (d : Deployment) (es : List Event) → IsText bytes d es → Taken bytes (schedule_lines d es) (schedule_items d es) (at_end d (length es)) [] }
{}

/// Bytes of which all lines are taken, the line `end` last, are the text of a schedule.
pub fn what_is_taken_is_a_text()
    ensures { (bytes : List ℕ) (lines : List (List ℕ)) (is : List LineItem) (p : Progress) → Taken bytes lines is p [] → p.head.place ≡ Ended → IsText bytes p.head.setup (events_on is) }
{}

/// Bytes are the text of one schedule at most.
pub fn one_text()
    ensures { (bytes : List ℕ) (d e : Deployment) (es fs : List Event) → IsText bytes d es → IsText bytes e fs → (d ≡ e) × (es ≡ fs) }
{}

/// The text of a schedule has no bad line.
pub fn no_text_has_a_bad_line()
    ensures { (bytes : List ℕ) (number : ℕ) (reason : Reason) (is : List LineItem) (d : Deployment) (es : List Event) → FirstBad bytes number reason is → IsText bytes d es → ⊥ }
{}

/// Bytes have one first bad line at most, which is bad for one reason.
pub fn one_first_bad_line()
    ensures { (bytes : List ℕ) (m n : ℕ) (x y : Reason) (is js : List LineItem) → FirstBad bytes m x is → FirstBad bytes n y js → (m ≡ n) × (x ≡ y) × (is ≡ js) }
{}

/// Bytes are the text of a schedule, or have a first bad line; and never both.
pub fn every_text_or_bad_line()
    ensures { (bytes : List ℕ) → HasText bytes ⊎ HasFirstBad bytes }
{}

/// The events on lines that are read may stand in a schedule of the setup: each fits it, and hands in a payload.
pub fn what_is_read_may_stand()
    ensures { (lines : List (List ℕ)) (is : List LineItem) (p : Progress) → reads at_start lines ≡ Ok (is, p) → AllByRecursion (MayStand p.head.setup) (events_on is) }
{}

/// A header, its events and the line `end` are no more lines than these.
pub fn few_lines_are_read()
    ensures { (lines : List (List ℕ)) (is : List LineItem) (p : Progress) → reads at_start lines ≡ Ok (is, p) → length lines ≤ 5 + MAX_NODES + MAX_SHARDS + EVENT_LIMIT }
{}

/// The lines of a script are read as its setup, its events and its turns, in order.
pub fn a_script_is_read()
    ensures { (form : ScriptForm) (d : Deployment) (steps : List ScriptStep) → IsScript form d steps
        → script_reads (script_start form) (script_lines d steps) ≡ Ok (script_items d steps, script_at_end form d steps) }
{}

/// Lines that a reader of scripts takes to the end are those of a script, with what was read.
pub fn what_is_read_is_a_script()
    ensures { (form : ScriptForm) (lines : List (List ℕ)) (is : List ScriptItem) (p : ScriptProgress) → script_reads (script_start form) lines ≡ Ok (is, p) → p.head.place ≡ Ended → IsScriptRead form p lines is }
{}

/// No two scripts for one purpose have the same lines.
pub fn one_script()
    ensures { (form : ScriptForm) (d e : Deployment) (ss us : List ScriptStep) → IsScript form d ss → IsScript form e us → script_lines d ss ≡ script_lines e us → (d ≡ e) × (ss ≡ us) }
{}
