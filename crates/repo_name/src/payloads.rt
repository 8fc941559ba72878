//! Lists that contracts see as lists: made from a `Vec` or a `String`, and lent as a slice, without memory.

ghost use Rattle.std.specs.Prelude.{All};
ghost use Rattle.repo_name.specs.Naming.{IsName};

use crate::names::Name;
use crate::rows::LockRow;
use std::marker::Model;

/// Some bytes. A clause sees their list.
#[derive(Clone, Debug, Drop)]
pub struct Bytes {
    inner: Vec<u8>,
}

impl Model for Bytes {
    ghost use Rattle.std.specs.Prelude.{ℕ, List};

    ghost Value = { List ℕ };

    ghost view = { λ b. b.inner.items };
}

impl Bytes {
    ghost use Rattle.std.specs.Prelude.{◌≡◌};

    /// The bytes of a `Vec`.
    pub fn of(inner: Vec<u8>) -> Bytes
        ensures { result ≡ inner.items }
    {
        Bytes { inner }
    }

    /// The bytes, lent.
    pub fn as_slice(&self) -> &[u8]
        ensures { result.now ≡ self.now }
    {
        self.inner.as_slice()
    }
}

impl PartialEq for Bytes {
    ghost use Rattle.std.specs.Prelude.{nat_eq};
    ghost use Rattle.std.specs.Cmp.Lexicographic.{pointwise, lists_per};
    ghost use Rattle.std.specs.Cmp.{nat_eq_equiv, partial_equiv_from_equiv};

    ghost eq = { pointwise nat_eq };

    ghost laws = { lists_per (partial_equiv_from_equiv nat_eq_equiv) };

    fn eq(&self, other: &Bytes) -> bool {
        self.inner.as_slice() == other.inner.as_slice()
    }
}

/// Some names, in an order that their owner states. A clause sees their list.
#[derive(Clone, Debug, Drop)]
pub struct Names {
    inner: Vec<Name>,
}

impl Model for Names {
    ghost use Rattle.std.specs.Prelude.{List, All};
    ghost use Rattle.repo_name.specs.Naming.{IsName};
    ghost use Rattle.repo_name.specs.declared.names.Name.{Name};

    ghost Value = { List Name };

    ghost view = { λ n. n.inner.items };

    ghost invariant = { λ n. All IsName n.inner.items };
}

impl Names {
    ghost use Rattle.std.specs.Prelude.{◌≡◌, All};
    ghost use Rattle.repo_name.specs.Naming.{IsName};

    /// The names of a `Vec`.
    pub fn of(inner: Vec<Name>) -> Names
        ensures value { result ≡ inner.items }
        ensures names { All IsName result }
    {
        are_names(inner.as_slice());
        Names { inner }
    }

    /// The names, lent.
    pub fn as_slice(&self) -> &[Name]
        ensures value { result.now ≡ self.now }
        ensures names { All IsName self.now }
    {
        self.inner.as_slice()
    }
}

/// Tells a proof what the type of names says. It computes nothing.
fn are_names(names: &[Name])
    ensures { All IsName names.now }
{
    for name in names {
        name.to_bytes();
    }
}

impl PartialEq for Names {
    ghost use Rattle.std.specs.Cmp.Lexicographic.{pointwise, lists_per};
    ghost use Rattle.repo_name.specs.contracts.names.NamePartialEq.TheImpl as element;
    ghost use Rattle.repo_name.specs.contracts.names.NamePartialEq.TheImpl.Laws as element_laws;

    ghost eq = { pointwise (element.ghosts).eq };

    ghost laws = { lists_per element_laws.laws-law };

    fn eq(&self, other: &Names) -> bool {
        self.inner.as_slice() == other.inner.as_slice()
    }
}

/// Some rows of live locks, in an order that their owner states. A clause sees their list.
#[derive(Clone, Debug, Drop)]
pub struct LockRows {
    inner: Vec<LockRow>,
}

impl Model for LockRows {
    ghost use Rattle.std.specs.Prelude.{List};
    ghost use Rattle.repo_name.specs.declared.rows.LockRow.{LockRow};

    ghost Value = { List LockRow };

    ghost view = { λ r. r.inner.items };
}

impl LockRows {
    ghost use Rattle.std.specs.Prelude.{◌≡◌};

    /// The rows of a `Vec`.
    pub fn of(inner: Vec<LockRow>) -> LockRows
        ensures { result ≡ inner.items }
    {
        LockRows { inner }
    }

    /// The rows, lent.
    pub fn as_slice(&self) -> &[LockRow]
        ensures { result.now ≡ self.now }
    {
        self.inner.as_slice()
    }
}

impl PartialEq for LockRows {
    ghost use Rattle.std.specs.Cmp.Lexicographic.{pointwise, lists_per};
    ghost use Rattle.repo_name.specs.contracts.rows.LockRowPartialEq.TheImpl as element;
    ghost use Rattle.repo_name.specs.contracts.rows.LockRowPartialEq.TheImpl.Laws as element_laws;

    ghost eq = { pointwise (element.ghosts).eq };

    ghost laws = { lists_per element_laws.laws-law };

    fn eq(&self, other: &LockRows) -> bool {
        self.inner.as_slice() == other.inner.as_slice()
    }
}

/// Some text in UTF-8: a host, or a component of a path. A clause sees the list of its bytes.
#[derive(Clone, Debug, Drop)]
pub struct Text {
    inner: String,
}

impl Model for Text {
    ghost use Rattle.std.specs.Prelude.{ℕ, List, string_bytes};

    ghost Value = { List ℕ };

    ghost view = { λ t. string_bytes t.inner };
}

impl Text {
    ghost use Rattle.std.specs.Prelude.{◌≡◌, IsUtf8, string_bytes};

    /// The text of a `String`.
    pub fn of(inner: String) -> Text
        ensures { result ≡ string_bytes inner }
    {
        Text { inner }
    }

    /// The text, lent.
    pub fn as_str(&self) -> &str
        ensures text { result.now ≡ self.now }
        ensures utf8 { IsUtf8 self.now }
    {
        self.inner.as_str()
    }
}

impl PartialEq for Text {
    ghost use Rattle.std.specs.Prelude.{nat_eq};
    ghost use Rattle.std.specs.Cmp.Lexicographic.{pointwise, lists_per};
    ghost use Rattle.std.specs.Cmp.{nat_eq_equiv, partial_equiv_from_equiv};

    ghost eq = { pointwise nat_eq };

    ghost laws = { lists_per (partial_equiv_from_equiv nat_eq_equiv) };

    fn eq(&self, other: &Text) -> bool {
        self.inner.as_str() == other.inner.as_str()
    }
}
