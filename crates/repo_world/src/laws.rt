//! What holds of all runs, by the definitions alone. Each function is empty, and its contract is the law.

ghost use Rattle.repo_world.specs.Laws.{EveryRunIsSafe, NoClashGoesBack};

/// Where no two byte lists clash after an event, none did before it.
pub fn no_clash_goes_back()
    ensures { NoClashGoesBack }
{}

/// From a store without objects, after any events, whatever comes after them, the world is safe, and what was handed to a
/// snapshot's backup is one list: where no two byte lists clash in the last world.
pub fn every_run_is_safe()
    ensures { EveryRunIsSafe }
{}
