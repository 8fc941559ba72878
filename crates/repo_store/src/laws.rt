//! What holds of the store machine and of serving, by their definitions alone.

ghost use Rattle.repo_store.specs.AppendOnly.{RunsOnlyAppend, ModeStays};
ghost use Rattle.repo_store.specs.Serving.{RunsCompose, ServingRuns};
ghost use Rattle.repo_store.specs.StoreMachine.{RefusalsChangeNothing};

/// After every refusal but the device's failure the store is as before.
pub fn refusals_change_nothing()
    ensures { RefusalsChangeNothing }
{}

/// One run after another is a run, and a failure that one of them told was counted.
pub fn runs_compose()
    ensures { RunsCompose }
{}

/// Whatever is asked of it, and whoever asks: a store that only appends keeps each object that was there, with
/// the same bytes.
pub fn runs_only_append()
    ensures { RunsOnlyAppend }
{}

/// Whether a store only appends never changes.
pub fn mode_stays()
    ensures { ModeStays }
{}

/// Whatever is read and written, and however it ends, serving is a run of the store machine.
pub fn serving_runs()
    ensures { ServingRuns }
{}
