//! What holds of the items that a backup is fed. Each function is empty, and its contract is the law.

ghost use Rattle.repo_backup.specs.ItemLaws.{SpelledAreHanded, WholeIsSpelled, ItemsLead, MadeGrows, EndIsLast, GivingUpIsLast, MadeOfAll, FaultsForbid, ExampleIsSpelled};

/// What items spell that may be taken may be handed in.
pub fn spelled_are_handed()
    ensures { SpelledAreHanded }
{}

/// Entries that may be handed in are spelled by the items that feed their folder, however its files are cut into pieces.
pub fn whole_is_spelled()
    ensures { WholeIsSpelled }
{}

/// Items that may be taken lead somewhere.
pub fn items_lead()
    ensures { ItemsLead }
{}

/// What was made of some items was made of any more, too.
pub fn made_grows()
    ensures { MadeGrows }
{}

/// Behind the end no item may be taken.
pub fn end_is_last()
    ensures { EndIsLast }
{}

/// Where somebody gave up no item may be taken.
pub fn giving_up_is_last()
    ensures { GivingUpIsLast }
{}

/// At the end it is what is made of the entries.
pub fn made_of_all()
    ensures { MadeOfAll }
{}

/// An item that has a fault may not be taken.
pub fn faults_forbid()
    ensures { FaultsForbid }
{}

/// A file that is fed in two pieces is spelled as one, and after it no name may begin that isn't above its own.
pub fn example_is_spelled()
    ensures { ExampleIsSpelled }
{}
