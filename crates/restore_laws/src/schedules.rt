//! The schedule that puts back what a backup kept.

ghost use Rattle.std.specs.Prelude.{All, List};
ghost use Rattle.tcs_terms.specs.Runs.{AreEventsOf};
ghost use Rattle.backup_machine.specs.declared.objects.Kept.{Kept};
ghost use Rattle.restore_laws.specs.Restored.{IsRestored};
ghost use Rattle.restore_laws.specs.Schedules.{CanBeRestored, IsKept, restored_events, restored_setup};
ghost use Rattle.restore_laws.specs.Worked.{IsAsWorked};

/// Its setup is one, and its events may stand in a run of that: so what holds of every run holds of this one.
pub fn schedule_fits()
    ensures { (kept : List Kept) → CanBeRestored kept → All IsKept kept → AreEventsOf restored_setup (restored_events kept) }
{}

/// After its run, the one copy of the data has exactly the objects that were kept, with their versions and values: each
/// event acts, and the transactions of the objects commit in the order of the objects.
pub fn restored()
    ensures { (kept : List Kept) → CanBeRestored kept → IsRestored kept }
{}

/// The schedule of two objects is the one that is worked out by hand among the runs of the protocol.
pub fn as_worked()
    ensures { IsAsWorked }
{}
