//! The sorts of requests that a script waits for.

ghost use Rattle.std.specs.Prelude.{◌≡◌, ◌↔◌, Some, IsTrue};
ghost use Rattle.repo_script.specs.Sorts.{sort_of};

use repo_name::Kind;
use repo_wire::Ask;

/// A sort of request. A script waits neither for a refresh nor for a list of locks.
#[derive(Clone, Copy, Debug, PartialEq, Eq)]
pub enum AskSort {
    Ticket,
    Lock,
    Config,
    List,
    Get,
    Range,
    Put(Kind),
    Delete(Kind),
    Unlock,
    Upgrade,
}

impl AskSort {
    /// The sort of a request.
    pub fn of(ask: &Ask) -> Option<AskSort>
        ensures { result ≡ sort_of ask.now }
    {
        match ask {
            Ask::Ticket => Some(AskSort::Ticket),
            Ask::Lock(_) => Some(AskSort::Lock),
            Ask::Unlock(_) => Some(AskSort::Unlock),
            Ask::List { .. } => Some(AskSort::List),
            Ask::Get { .. } => Some(AskSort::Get),
            Ask::Range { .. } => Some(AskSort::Range),
            Ask::Put { kind, .. } => Some(AskSort::Put(*kind)),
            Ask::Delete { kind, .. } => Some(AskSort::Delete(*kind)),
            Ask::Config => Some(AskSort::Config),
            Ask::Upgrade(_) => Some(AskSort::Upgrade),
            Ask::Refresh { .. } | Ask::Locks => None,
        }
    }

    /// Whether a request is of this sort.
    pub fn matches(&self, ask: &Ask) -> bool
        ensures { IsTrue result ↔ (sort_of ask.now ≡ Some self.now) }
    {
        AskSort::of(ask) == Some(*self)
    }
}
