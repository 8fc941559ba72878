//! Maps whose keys are names, with contracts that see what stands under each name.

ghost use Rattle.std.specs.Prelude.{◌≡◌, OnOk, OnErr};
ghost use Rattle.repo_name.specs.NameMaps.{found, Inserted, Dropped};

use crate::names::Name;
use std::alloc::AllocError;
use std::collections::BTreeMap;

/// Puts a value under a name, in place of the one that stood there. It fails for memory alone, and then
/// nothing changed.
pub fn insert_named<X: Drop>(
    map: &mut BTreeMap<Name, X>,
    name: Name,
    value: X,
) -> Result<(), AllocError>
    ensures ok { OnOk result (Inserted (found map.old) name value (found map.new)) }
    ensures err { OnErr result (found map.new ≡ found map.old) }
{
    match map.insert(name, value) {
        Ok(_) => Ok(()),
        Err(_) => Err(AllocError),
    }
}

/// Takes away what stands under a name, if something does.
pub fn remove_named<X: Drop>(map: &mut BTreeMap<Name, X>, name: &Name)
    ensures { Dropped (found map.old) name.now (found map.new) }
{
    map.remove(name);
}
