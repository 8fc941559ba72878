//! Index texts, written.

ghost use Rattle.std.specs.Prelude.{◌≡◌, ◌≤◌, ◌+◌, ◌*◌, List, length, IfOk, IfErr, OnOk, All};
ghost use Rattle.serde_json.specs.Data.{string, array};
ghost use Rattle.serde_json.specs.View.{view};
ghost use Rattle.repo_name.specs.Naming.{hex_of, IsName};
ghost use Rattle.repo_index.specs.IndexText.{type_text, IsFact, IsIndexText, facts_in};
ghost use Rattle.repo_index.specs.IndexWriting.{fact_data, fact_items, pack_data, pack_items, index_data, index_text, AreLawful, AreFew, ArePacks};
ghost use Rattle.repo_index.specs.declared.faults.IndexError.{IndexError};
ghost use Rattle.repo_name.specs.Limits.{index_limit};

use crate::facts::{Fact, PackFacts};
use crate::faults::IndexError;
use crate::index_text::IndexText;
use repo_name::BlobKind;
use serde_json::{Value, json};
use std::alloc::{AllocError, Global};

/// The `type` of a blob of this kind.
fn type_of(kind: BlobKind) -> &'static str
    ensures { result.now ≡ type_text kind }
{
    match kind {
        BlobKind::Content => "data",
        BlobKind::Tree => "tree",
    }
}

/// The object of a blob.
fn fact_value(alloc: Global, fact: Fact) -> Result<Value, AllocError>
    ensures value { IfOk result (λ v. view v ≡ fact_data fact) }
    ensures made { IsFact fact }
{
    let id = fact.name.to_hex(alloc)?;
    let id = id.as_str();
    let (length, offset) = (fact.place.length, fact.place.offset);
    let kind = type_of(fact.kind);
    json!(in alloc; {"id": id, "length": length, "offset": offset, "type": kind})
}

/// The objects of some blobs, in a list.
fn facts_value(alloc: Global, facts: &[Fact]) -> Result<Value, AllocError>
    ensures value { IfOk result (λ v. view v ≡ array (fact_items facts.now)) }
    ensures made { OnOk result (All IsFact facts.now) }
{
    let mut items = Vec::new(alloc);
    for fact in facts {
        let item = fact_value(alloc, *fact)?;
        items.push(item)?;
    }
    Ok(Value::Array(items))
}

/// The object of a pack.
fn pack_value(alloc: Global, listed: &PackFacts) -> Result<Value, AllocError>
    ensures value { IfOk result (λ v. view v ≡ pack_data listed.now) }
    ensures made { OnOk result (IsName listed.now.pack × All IsFact listed.now.facts) }
{
    let blobs = facts_value(alloc, listed.facts.as_slice())?;
    let id = listed.pack.to_hex(alloc)?;
    let id = id.as_str();
    json!(in alloc; {"blobs": blobs, "id": id})
}

/// The objects of some packs, in a list.
fn packs_value(alloc: Global, packs: &[PackFacts]) -> Result<Value, AllocError>
    ensures value { IfOk result (λ v. view v ≡ array (pack_items packs.now)) }
    ensures made { OnOk result (ArePacks packs.now) }
{
    let mut items = Vec::new(alloc);
    for listed in packs {
        let item = pack_value(alloc, listed)?;
        items.push(item)?;
    }
    Ok(Value::Array(items))
}

/// The object of an index.
fn index_value(alloc: Global, packs: &[PackFacts]) -> Result<Value, AllocError>
    ensures value { IfOk result (λ v. view v ≡ index_data packs.now) }
    ensures made { OnOk result (ArePacks packs.now) }
{
    let packs = packs_value(alloc, packs)?;
    let supersedes = Value::Array(Vec::new(alloc));
    json!(in alloc; {"packs": packs, "supersedes": supersedes})
}

impl IndexText {
    /// The index's text. It fails for memory alone.
    ///
    /// Each fact and each pack adds at most 128 bytes to the 28 of an empty index. So at most 24,095 facts, with no pack
    /// without one, take at most 8,388,608 bytes, which is the limit of an index object.
    pub fn write(&self, alloc: Global) -> Result<Vec<u8>, IndexError>
        ensures text { IfOk result (λ text. text.items ≡ index_text self.now) }
        ensures reads { IfOk result (λ text. AreLawful self.now → IsIndexText text.items self.now) }
        ensures adds { IfOk result (λ text. length text.items ≤ 28 + 128 * (length (facts_in self.now) + length self.now)) }
        ensures short { IfOk result (λ text. AreFew self.now → length text.items ≤ index_limit) }
        ensures memory { IfErr result (λ e. e ≡ IndexError.Memory) }
    {
        let value = index_value(alloc, self.packs())?;
        Ok(value.to_vec(alloc)?)
    }
}
