//! What holds of all runs, by the definitions alone. Each function is empty, and its contract is the law.

ghost use Rattle.repo_runs.specs.Laws.{EachEventKeepsReports, EachReportHolds, EventsOnlyAppend, EverySnapshotIsRestored, EveryStoreIsFit, FailingIsAStep};

/// A step in which a call of the store's device fails, as it was called for, is a step of the store machine.
pub fn failing_is_a_step()
    ensures { FailingIsAStep }
{}

/// In a world whose store only appends no event takes an object away or changes one: over every list of events each object
/// that was there is there, with the same bytes.
pub fn events_only_append()
    ensures { EventsOnlyAppend }
{}

/// Over any event each client stays dutiful, and an outcome that is there stays.
pub fn each_event_keeps_reports()
    ensures { EachEventKeepsReports }
{}

/// A snapshot that a client once reported as stored is there, or a forget that chose it asked for its deletion, at every later
/// time; and what this client was handed is what is known as handed to the snapshot's backup.
pub fn each_report_holds()
    ensures { EachReportHolds }
{}

/// After any events the store is one in which a client alone finds all that it wants, where it is at rest: its config reads, no
/// lock is live, and there is a next number.
pub fn every_store_is_fit()
    ensures { EveryStoreIsFit }
{}

/// And then each snapshot that is there can be had: a restore of it by a client that knows the config's version, alone with that
/// store, whose device doesn't fail, is complete at its end, or the store had no memory.
pub fn every_snapshot_is_restored()
    ensures { EverySnapshotIsRestored }
{}
