//! Reports: how the jobs of clients ended, and what a store has.

ghost use Rattle.std.specs.Prelude.{◌≡◌, IfOk, option_map, string_bytes};
ghost use Rattle.repo_name.specs.declared.kinds.Kind.{Kind};
ghost use Rattle.repo_store.specs.Laws.{HasCause};
ghost use Rattle.repo_store.specs.declared.faults.Armed.{Armed};
ghost use Rattle.repo_world.specs.Reports.{HasObjects, IsStoreLine, client_line, role_word};

use repo_name::Kind;
use repo_session::{Outcome, result_text};
use repo_store::{Shelf, ShelfError, all_names};
use std::alloc::{AllocError, Global};

/// What a client is, by its job.
#[derive(Clone, Copy, Debug, PartialEq, Eq)]
pub enum Role {
    Backup,
    Restore,
    List,
    Forget,
    Prune,
    Check,
    Upgrade,
}

impl Role {
    /// What it is called.
    pub fn word(self) -> &'static str
        ensures { result.now ≡ role_word self }
    {
        match self {
            Role::Backup => "backup",
            Role::Restore => "restore",
            Role::List => "list",
            Role::Forget => "forget",
            Role::Prune => "prune",
            Role::Check => "check",
            Role::Upgrade => "upgrade",
        }
    }
}

/// The line of a client: its number, what it is, and how its job ended, or that it crashed or still runs. It fails for
/// memory alone.
pub fn client_line(
    alloc: Global,
    number: usize,
    role: Role,
    outcome: Option<&Outcome>,
    crashed: bool,
) -> Result<String, AllocError>
    ensures { IfOk result (λ line. string_bytes line ≡ client_line number role (option_map (λ o. o.now) outcome.entry) crashed) }
{
    let word = role.word();
    let result = result_text(alloc, outcome, crashed)?;
    format!(in alloc; "client {number} {word} {result}\n")
}

/// How many objects of a kind a device has.
fn count_of<S: Shelf>(alloc: Global, shelf: &mut S, kind: Kind) -> Result<usize, ShelfError>
    ensures count { S.honest shelf.old → IfOk result (HasObjects ((S.store shelf.old).objects kind)) }
    ensures same { S.honest shelf.old → S.store shelf.new ≡ S.store shelf.old }
    ensures cause { S.honest shelf.old → HasCause (S.failed shelf.old) result (S.failed shelf.new) }
    ensures own { S.honest shelf.old → S.armed shelf.old ≡ Armed.Nothing → HasCause (S.own shelf.old) result (S.own shelf.new) }
    ensures disarmed { S.honest shelf.old → S.armed shelf.old ≡ Armed.Nothing → S.armed shelf.new ≡ Armed.Nothing }
    ensures honest { S.honest shelf.old → S.honest shelf.new }
{
    let names = all_names(alloc, shelf, kind)?;
    Ok(names.len())
}

/// The line of a store: how many packs, indexes and snapshots its device has, and how many locks are live. It changes
/// nothing but the count of failures. `Fault` comes only where the device failed.
pub fn store_line<S: Shelf>(alloc: Global, shelf: &mut S) -> Result<String, ShelfError>
    ensures line { S.honest shelf.old → IfOk result (λ line. IsStoreLine (S.store shelf.old) (string_bytes line)) }
    ensures same { S.honest shelf.old → S.store shelf.new ≡ S.store shelf.old }
    ensures cause { S.honest shelf.old → HasCause (S.failed shelf.old) result (S.failed shelf.new) }
    ensures own { S.honest shelf.old → S.armed shelf.old ≡ Armed.Nothing → HasCause (S.own shelf.old) result (S.own shelf.new) }
    ensures disarmed { S.honest shelf.old → S.armed shelf.old ≡ Armed.Nothing → S.armed shelf.new ≡ Armed.Nothing }
    ensures honest { S.honest shelf.old → S.honest shelf.new }
{
    let packs = count_of(alloc, shelf, Kind::Pack)?;
    let indexes = count_of(alloc, shelf, Kind::Index)?;
    let snapshots = count_of(alloc, shelf, Kind::Snapshot)?;
    let ledger = shelf.ledger()?;
    let rows = ledger.locks(alloc)?;
    let live = rows.as_slice().len();
    let line = format!(in alloc;
        "store packs {packs} indexes {indexes} snapshots {snapshots} live {live}\n"
    )?;
    Ok(line)
}
