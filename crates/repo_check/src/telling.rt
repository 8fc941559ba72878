//! The list of faults, from what was found of each thing.

ghost use Rattle.std.specs.Prelude.{◌≡◌, ◌++◌, OnOk};
ghost use Rattle.repo_check.specs.Telling.{told, ToldAreFound, ToldAscend, RanksAscend};

use repo_name::{Name, Thing};
use repo_session::{CheckFault, FaultKind};
use std::alloc::AllocError;

/// Adds the faults of things of one sort behind others: by the names of the things, and by what was found of each. It
/// fails for memory alone, and then some of them were added.
pub fn tell(
    thing: Thing,
    names: &[Name],
    found: &[Option<FaultKind>],
    faults: &mut Vec<CheckFault>,
) -> Result<(), AllocError>
    ensures { OnOk result (faults.new.items ≡ faults.old.items ++ told thing names.now found.now) }
{
    for (name, what) in names.iter().zip(found.iter()) {
        if let Some(what) = what {
            faults.push(CheckFault {
                thing,
                name: *name,
                what: *what,
            })?;
        }
    }
    Ok(())
}

/// The faults told are just those found.
pub fn told_are_found()
    ensures { ToldAreFound }
{}

/// Of names that ascend the faults are told in order, where all have one rank.
pub fn told_ascend()
    ensures { ToldAscend }
{}

/// Faults in order, and behind them others in order whose ranks are above theirs, are in order.
pub fn ranks_ascend()
    ensures { RanksAscend }
{}
