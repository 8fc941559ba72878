//! The laws of cuts, each as the contract of a function that does nothing.

ghost use Rattle.repo_disk.specs.Cuts.{EachCutIsFated, EachFateMayBeLeft};

/// Each content that a cut may leave is what the names came to in a run of the same calls.
pub fn each_cut_is_fated()
    ensures { EachCutIsFated }
{}

/// What the names come to in a run of calls is a content that a cut may leave.
pub fn each_fate_may_be_left()
    ensures { EachFateMayBeLeft }
{}
