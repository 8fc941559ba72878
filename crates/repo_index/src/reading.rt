//! Index texts, read.

ghost use Rattle.std.specs.Prelude.{◌≡◌, ◌≢◌, ◌↔◌, ℕ, List, Some, Err, IfOk, IfErr, IfSome, IfNone, IsSome, IsErrOf, OnOk};
ghost use Rattle.serde_json.specs.View.{view, items_view};
ghost use Rattle.repo_name.specs.Naming.{IsName};
ghost use Rattle.repo_name.specs.declared.names.Name.{Name};
ghost use Rattle.repo_name.specs.declared.kinds.BlobKind.{BlobKind};
ghost use Rattle.repo_pack.specs.PackLayout.{IsWithin};
ghost use Rattle.repo_json.specs.Listing.{AreAll, HasFault};
ghost use Rattle.repo_index.specs.IndexText.{type_text, BlobSays, PackLists, IsNameText, HasSuperseded, IndexLists, IsIndexText};
ghost use Rattle.repo_index.specs.IndexFaults.{BlobFault, PackFault, NameFault, SupersededFault, RootFault, IndexFault};
ghost use Rattle.repo_index.specs.declared.facts.PackFacts.{PackFacts};
ghost use Rattle.repo_index.specs.declared.faults.IndexError.{IndexError};

use crate::facts::{Fact, Facts, PackFacts};
use crate::faults::IndexError;
use crate::index_text::IndexText;
use repo_json::{hex_name, parse};
use repo_name::{BLOB_LIMIT, BlobKind, CONTENTS_LIMIT, Name};
use repo_pack::Place;
use serde_json::Value;
use std::alloc::Global;

/// The kind whose `type` this is.
fn kind_of(text: &str) -> Option<BlobKind>
    ensures found { IfSome result (λ k. text.now ≡ type_text k) }
    ensures none { IfNone result ((k : BlobKind) → text.now ≢ type_text k) }
{
    if text == "data" {
        return Some(BlobKind::Content);
    }
    if text == "tree" {
        return Some(BlobKind::Tree);
    }
    None
}

/// The place of so many bytes from an offset on, where it is within range.
fn place_of(pack: Name, offset: u64, length: u64) -> Option<Place>
    ensures variant { IsSome result ↔ IsWithin offset length }
    ensures place { IfSome result (λ p. p ≡ record { pack = pack; offset = offset; length = length }) }
{
    if length == 0 || length > BLOB_LIMIT as u64 || offset > CONTENTS_LIMIT as u64 - length {
        return None;
    }
    let (offset, length) = (offset as u32, length as u32);
    Some(Place {
        pack,
        offset,
        length,
    })
}

/// The fact that a blob's object says, where the blob is of this pack.
fn fact_of(pack: Name, value: &Value) -> Result<Fact, IndexError>
    ensures ok { IfOk result (BlobSays pack (view value.now)) }
    ensures fault { IfErr result (λ e. BlobFault e (view value.now)) }
{
    let Some(id) = value.get("id").and_then(Value::as_str) else {
        return Err(IndexError::Shape);
    };
    let Some(length) = value.get("length").and_then(Value::as_u64) else {
        return Err(IndexError::Shape);
    };
    let Some(offset) = value.get("offset").and_then(Value::as_u64) else {
        return Err(IndexError::Shape);
    };
    let Some(kind) = value.get("type").and_then(Value::as_str).and_then(kind_of) else {
        return Err(IndexError::Shape);
    };
    let Some(name) = hex_name(id) else {
        return Err(IndexError::Name);
    };
    let Some(place) = place_of(pack, offset, length) else {
        return Err(IndexError::Range);
    };
    Ok(Fact { kind, name, place })
}

/// The facts that the objects of blobs say, where the blobs are of this pack.
fn facts_of(alloc: Global, pack: Name, values: &[Value]) -> Result<Facts, IndexError>
    ensures ok { IfOk result (AreAll (BlobSays pack) (items_view values.now)) }
    ensures fault { IfErr result (λ e. e ≢ IndexError.Memory → HasFault (BlobSays pack) (BlobFault e) (items_view values.now)) }
{
    let mut facts = Vec::new(alloc);
    for value in values {
        let fact = fact_of(pack, value)?;
        facts.push(fact).map_err(|_| IndexError::Memory)?;
    }
    Ok(Facts::of(facts))
}

/// What a pack's object lists.
fn pack_of(alloc: Global, value: &Value) -> Result<PackFacts, IndexError>
    ensures ok { IfOk result (PackLists (view value.now)) }
    ensures fault { IfErr result (λ e. e ≢ IndexError.Memory → PackFault e (view value.now)) }
{
    let Some(blobs) = value.get("blobs").and_then(Value::as_array) else {
        return Err(IndexError::Shape);
    };
    let Some(id) = value.get("id").and_then(Value::as_str) else {
        return Err(IndexError::Shape);
    };
    let Some(pack) = hex_name(id) else {
        return Err(IndexError::Name);
    };
    let facts = facts_of(alloc, pack, blobs.as_slice())?;
    Ok(PackFacts { pack, facts })
}

/// What the objects of packs list.
fn packs_of(alloc: Global, values: &[Value]) -> Result<IndexText, IndexError>
    ensures ok { IfOk result (AreAll PackLists (items_view values.now)) }
    ensures fault { IfErr result (λ e. e ≢ IndexError.Memory → HasFault PackLists (PackFault e) (items_view values.now)) }
{
    let mut packs = Vec::new(alloc);
    for value in values {
        let pack = pack_of(alloc, value)?;
        packs.push(pack).map_err(|_| IndexError::Memory)?;
    }
    Ok(IndexText::of(packs))
}

/// Whether a value is a name's text.
fn check_name(value: &Value) -> Result<(), IndexError>
    ensures ok { OnOk result ((name : Name) × IsNameText (view value.now) name) }
    ensures fault { IfErr result (λ e. NameFault e (view value.now)) }
{
    let Some(id) = value.as_str() else {
        return Err(IndexError::Shape);
    };
    if hex_name(id).is_none() {
        return Err(IndexError::Name);
    }
    Ok(())
}

/// Whether values are the texts of names.
fn check_names(values: &[Value]) -> Result<(), IndexError>
    ensures ok { OnOk result ((names : List Name) × AreAll IsNameText (items_view values.now) names) }
    ensures fault { IfErr result (λ e. HasFault IsNameText (NameFault e) (items_view values.now)) }
{
    for value in values {
        check_name(value)?;
    }
    Ok(())
}

/// Whether an index may say what it says of others that it supersedes.
fn check_superseded(value: &Value) -> Result<(), IndexError>
    ensures ok { OnOk result (HasSuperseded (view value.now)) }
    ensures fault { IfErr result (λ e. SupersededFault e (view value.now)) }
{
    let Some(superseded) = value.get("supersedes") else {
        return Ok(());
    };
    let Some(names) = superseded.as_array() else {
        return Err(IndexError::Shape);
    };
    check_names(names.as_slice())
}

/// What an index's object lists.
fn index_of(alloc: Global, value: &Value) -> Result<IndexText, IndexError>
    ensures ok { IfOk result (IndexLists (view value.now)) }
    ensures fault { IfErr result (λ e. e ≢ IndexError.Memory → RootFault e (view value.now)) }
{
    let Some(packs) = value.get("packs").and_then(Value::as_array) else {
        return Err(IndexError::Shape);
    };
    let index = packs_of(alloc, packs.as_slice())?;
    check_superseded(value)?;
    Ok(index)
}

impl IndexText {
    /// The index of which this is the text, whatever other members its objects have. The text may be of any length.
    ///
    /// Of several faults it tells the first, in the order of [`IndexError`]; `Memory` may come in place of any answer.
    pub fn read(alloc: Global, bytes: &[u8]) -> Result<IndexText, IndexError>
        ensures ok { IfOk result (IsIndexText bytes.now) }
        ensures fault { IfErr result (λ e. IndexFault e bytes.now) }
        ensures none { IfErr result (λ e. e ≢ IndexError.Memory → (packs : List PackFacts) → ¬ IsIndexText bytes.now packs) }
    {
        let value = parse(alloc, bytes)?;
        index_of(alloc, &value)
    }
}
