//! What holds of every generated run.
ghost use Rattle.std.specs.Prelude.{◌≡◌, ℕ, suc, ◌<◌, ◌≤◌, length, true};
ghost use Rattle.cert_serial.specs.Serial.{serial};
ghost use Rattle.protocol.specs.Limit.{limited_run};
ghost use Rattle.protocol.specs.OneCopy.{is_honest, is_one_copy};
ghost use Rattle.protocol_laws.specs.Promises.{KeepsItsPromises, world_of};
ghost use Rattle.tcs_terms.specs.Runs.{AreEventsOf, MayStand};
ghost use Rattle.generator.specs.Courses.{HasRoom};
ghost use Rattle.generated_runs.specs.Setup.{setup};
ghost use Rattle.generated_runs.specs.Runs.{generated, events_until, next_event, KeepsWithin};

/// The run that the generator steps is the run of the events that it chose.
pub fn runs_its_events()
    ensures { (seed count place : ℕ) → (generated seed count place).progress ≡ limited_run serial setup (events_until seed count place) }
{}

/// While numbers are queued, messages were sent.
pub fn queued_are_sent()
    ensures { (seed count place : ℕ) → 0 < length (generated seed count place).course.queue → 0 < length (world_of (generated seed count place).progress).messages }
{}

/// Reads are honest: before a transaction begins, each object that it reads was read at that version.
pub fn reads_are_honest()
    ensures { (seed count place : ℕ) → is_honest (world_of (generated seed count place).progress).history ≡ true }
{}

/// While its run keeps within the limit, each of the first 50,000 events of a generated schedule may stand in a run of the
/// setup.
pub fn events_may_stand()
    ensures { (seed count place : ℕ) → place ≤ 50000 → KeepsWithin seed count place → AreEventsOf setup (events_until seed count place) }
{}

/// So may the event that comes next.
pub fn next_may_stand()
    ensures { (seed count place : ℕ) → place ≤ 50000 → KeepsWithin seed count place → MayStand setup (next_event count (suc place) (generated seed count place)) }
{}

/// And a version is left above those that a transfer read.
pub fn versions_have_room()
    ensures { (seed count place : ℕ) → place ≤ 50000 → KeepsWithin seed count place → HasRoom (generated seed count place).course.transfer }
{}

/// Whose events may stand in a run of the setup, that run keeps its promises.
pub fn promises_are_kept()
    ensures { (seed count place : ℕ) → AreEventsOf setup (events_until seed count place)
        → KeepsItsPromises serial setup (events_until seed count place) (generated seed count place).progress }
{}

/// And there is one copy of the data: each committed transaction finds there what it read. That reads were honest is no
/// premise.
pub fn one_copy()
    ensures { (seed count place : ℕ) → AreEventsOf setup (events_until seed count place)
        → is_one_copy (world_of (generated seed count place).progress).history ≡ true }
{}
