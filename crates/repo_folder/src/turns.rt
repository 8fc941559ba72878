//! A life of a store: calls that write, kills and power cuts, one after another.

ghost use Rattle.std.specs.Prelude.{◌≡◌, IfOk};
ghost use Rattle.repo_folder.specs.Folders.{IsHonest};
ghost use Rattle.repo_folder.specs.Lives.{at, Turns, Lives};
ghost use Rattle.repo_folder.specs.Spelling.{HasLedger};

use crate::dir_shelf::DirShelf;
use repo_disk::Cuts;
use repo_locks::Ledger;
use repo_name::{Bytes, Kind, Name};
use repo_store::{Shelf, ShelfError};
use std::alloc::{AllocError, Global};

/// What happens to a store: a call that writes, a kill of its program, or a cut of the power.
#[derive(Debug, Drop)]
pub enum Turn {
    Put(Kind, Name, Bytes),
    Remove(Kind, Name),
    SaveLedger(Ledger),
    SaveConfig(Bytes),
    Kill,
    Cut,
}

/// Makes a turn. What it tells is the call's answer.
fn take_turn<D: Cuts + Drop>(
    shelf: DirShelf<D>,
    turn: &Turn,
) -> (DirShelf<D>, Result<(), ShelfError>)
    ensures honest { IsHonest (D.faithful shelf.folder.disk) shelf.folder.standing (D.state shelf.folder.disk) → HasLedger (D.state shelf.folder.disk).fate
        → IsHonest (D.faithful result.0.folder.disk) result.0.folder.standing (D.state result.0.folder.disk) × HasLedger (D.state result.0.folder.disk).fate }
    ensures law { IsHonest (D.faithful shelf.folder.disk) shelf.folder.standing (D.state shelf.folder.disk) → HasLedger (D.state shelf.folder.disk).fate
        → Turns (at (D.state shelf.folder.disk) shelf.folder.standing shelf.folder.has_failed) turn.now result.1
        (at (D.state result.0.folder.disk) result.0.folder.standing result.0.folder.has_failed) }
{
    let mut shelf = shelf;
    match turn {
        Turn::Put(kind, name, bytes) => {
            let told = shelf.put(*kind, name, bytes.as_slice());
            (shelf, told)
        }
        Turn::Remove(kind, name) => {
            let told = shelf.remove(*kind, name);
            (shelf, told)
        }
        Turn::SaveLedger(ledger) => {
            let told = shelf.save_ledger(ledger);
            (shelf, told)
        }
        Turn::SaveConfig(bytes) => {
            let told = shelf.save_config(bytes.as_slice());
            (shelf, told)
        }
        Turn::Kill => (shelf.kill(), Ok(())),
        Turn::Cut => (shelf.cut(), Ok(())),
    }
}

/// A life of a store, and what each turn told: what was acknowledged was made, what failed was made whole or not, and
/// a kill and a cut undid none of it. It fails for memory alone.
pub fn live<D: Cuts + Drop>(
    alloc: Global,
    shelf: DirShelf<D>,
    turns: &[Turn],
) -> Result<(DirShelf<D>, Vec<Result<(), ShelfError>>), AllocError>
    ensures honest { IsHonest (D.faithful shelf.folder.disk) shelf.folder.standing (D.state shelf.folder.disk)
        → HasLedger (D.state shelf.folder.disk).fate → IfOk result
        (λ lived. IsHonest (D.faithful lived.0.folder.disk) lived.0.folder.standing (D.state lived.0.folder.disk) × HasLedger (D.state lived.0.folder.disk).fate) }
    ensures law { IsHonest (D.faithful shelf.folder.disk) shelf.folder.standing (D.state shelf.folder.disk) → HasLedger (D.state shelf.folder.disk).fate
        → IfOk result
        (λ lived. Lives (at (D.state shelf.folder.disk) shelf.folder.standing shelf.folder.has_failed) turns.now lived.1.items
        (at (D.state lived.0.folder.disk) lived.0.folder.standing lived.0.folder.has_failed)) }
{
    let mut shelf = shelf;
    let mut told = Vec::with_capacity(alloc, turns.len())?;
    for turn in turns {
        let (next, tells) = take_turn(shelf, turn);
        shelf = next;
        told.push(tells)?;
    }
    Ok((shelf, told))
}
