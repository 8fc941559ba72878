//! What holds of all scripts, by the definitions alone. Each function is empty, and its contract is the law.

ghost use Rattle.repo_play.specs.Laws.{CarriedIsPlayed, ScriptsAreRuns};

/// Wherever the lines of a script lead to, a run of events leads there too: so each world of a script is safe, as those of runs
/// are.
pub fn scripts_are_runs()
    ensures { ScriptsAreRuns }
{}

/// What a script whose messages are carried writes, it writes where nothing carries them.
pub fn carried_is_played()
    ensures { CarriedIsPlayed }
{}
