//! What is remembered of a shelf.

ghost use Rattle.std.specs.Prelude.{◌≡◌, true, false, Some, None, IfOk, OnErr, OnOk, option_map};
ghost use Rattle.repo_store.specs.Kept.{is_in, names_of, nothing, Changes, WasNew, KeepsOthers, StaysKnown};

use repo_locks::Ledger;
use repo_name::{Kind, Name, insert_named, remove_named};
use std::alloc::AllocError;
use std::collections::BTreeMap;

/// A set of names, kept as a map to nothing, of which a page is taken as of a map.
pub type NameSet = BTreeMap<Name, ()>;

/// The ledger and the names of each kind, as far as they are known.
#[derive(Debug, Drop)]
pub struct Known {
    pub ledger: Option<Ledger>,
    packs: Option<NameSet>,
    indexes: Option<NameSet>,
    snapshots: Option<NameSet>,
}

/// A name joins known names, and it is said whether it wasn't among them. It fails for memory alone, and then
/// they are as before.
fn note_in(names: &mut Option<NameSet>, name: &Name) -> Result<bool, AllocError>
    ensures ok { OnOk result (Changes (option_map is_in names.old) name.now true (option_map is_in names.new)) }
    ensures new { IfOk result (WasNew (option_map is_in names.old) name.now) }
    ensures err { OnErr result (option_map is_in names.new ≡ option_map is_in names.old) }
{
    let Some(known) = names else {
        return Ok(false);
    };
    if known.contains_key(name) {
        return Ok(false);
    }
    insert_named(known, *name, ())?;
    Ok(true)
}

/// A name leaves known names.
fn strike_from(names: &mut Option<NameSet>, name: &Name)
    ensures { Changes (option_map is_in names.old) name.now false (option_map is_in names.new) }
{
    if let Some(known) = names {
        remove_named(known, name);
    }
}

impl Known {
    /// Nothing is known.
    pub fn nothing() -> Known
        ensures { result ≡ nothing }
    {
        Known {
            ledger: None,
            packs: None,
            indexes: None,
            snapshots: None,
        }
    }

    /// The names of a kind, where they are known.
    pub fn names(&self, kind: Kind) -> Option<&NameSet>
        ensures { option_map (λ names. is_in names.now) result ≡ names_of self.now kind }
    {
        match kind {
            Kind::Pack => self.packs.as_ref(),
            Kind::Index => self.indexes.as_ref(),
            Kind::Snapshot => self.snapshots.as_ref(),
        }
    }

    /// These are the names of a kind.
    pub fn learn(&mut self, kind: Kind, names: NameSet)
        ensures names { names_of self.new kind ≡ Some (is_in names) }
        ensures others { KeepsOthers self.old kind self.new }
    {
        match kind {
            Kind::Pack => self.packs = Some(names),
            Kind::Index => self.indexes = Some(names),
            Kind::Snapshot => self.snapshots = Some(names),
        }
    }

    /// A name joins those of a kind, where they are known, and it is said whether it wasn't among them. It
    /// fails for memory alone, and then all is known as before.
    pub fn note(&mut self, kind: Kind, name: &Name) -> Result<bool, AllocError>
        ensures ok { OnOk result (Changes (names_of self.old kind) name.now true (names_of self.new kind) × KeepsOthers self.old kind self.new) }
        ensures new { IfOk result (WasNew (names_of self.old kind) name.now) }
        ensures err { OnErr result (StaysKnown self.old self.new) }
    {
        match kind {
            Kind::Pack => note_in(&mut self.packs, name),
            Kind::Index => note_in(&mut self.indexes, name),
            Kind::Snapshot => note_in(&mut self.snapshots, name),
        }
    }

    /// A name that was added leaves those of a kind again.
    pub fn take_back(&mut self, kind: Kind, name: &Name, added: bool)
        ensures added { added ≡ true → Changes (names_of self.old kind) name.now false (names_of self.new kind) × KeepsOthers self.old kind self.new }
        ensures other { added ≡ false → self.new ≡ self.old }
    {
        if added {
            self.strike(kind, name);
        }
    }

    /// A name leaves those of a kind, where they are known.
    pub fn strike(&mut self, kind: Kind, name: &Name)
        ensures names { Changes (names_of self.old kind) name.now false (names_of self.new kind) }
        ensures others { KeepsOthers self.old kind self.new }
    {
        match kind {
            Kind::Pack => strike_from(&mut self.packs, name),
            Kind::Index => strike_from(&mut self.indexes, name),
            Kind::Snapshot => strike_from(&mut self.snapshots, name),
        }
    }
}
