//! The laws of a store's folder, each as the contract of a function that does nothing.

ghost use Rattle.repo_folder.specs.Laws.{LedgersReadBack};

/// A ledger's bytes spell that ledger.
pub fn ledgers_read_back()
    ensures { LedgersReadBack }
{}
