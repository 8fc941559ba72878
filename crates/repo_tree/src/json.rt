//! Bytes that are JSON within a limit, and the members of an object.

ghost use Rattle.std.specs.Prelude.{◌≡◌, ◌≢◌, ◌<◌, ◌≤◌, ◌↔◌, ℕ, length, codes, Some, IsTrue, IfOk, IfErr, IfSome, IfNone, IsErrOf};
ghost use Rattle.serde_json.specs.Data.{Data};
ghost use Rattle.serde_json.specs.View.{view};
ghost use Rattle.repo_name.specs.Naming.{hex_of, IsName};
ghost use Rattle.repo_name.specs.declared.names.Name.{Name};
ghost use Rattle.repo_json.specs.JsonText.{number_at, text_at};
ghost use Rattle.repo_tree.specs.ShortJson.{IsShortJson};
ghost use Rattle.repo_tree.specs.Versions.{IsKnownTo};
ghost use Rattle.repo_tree.specs.declared.faults.TextError.{TextError};

use crate::faults::TextError;
use crate::versions::is_known;
use repo_json::{JsonError, hex_name};
use repo_name::Name;
use serde_json::Value;
use std::alloc::Global;

/// Why some bytes are no JSON value within a limit.
#[derive(Clone, Copy, Debug, PartialEq, Eq)]
pub(crate) enum ParseError {
    TooLarge,
    Json,
    Memory,
}

/// The value that the bytes read as, if they are no more than the limit.
pub(crate) fn parse(alloc: Global, bytes: &[u8], limit: usize) -> Result<Value, ParseError>
    ensures ok { IfOk result (λ v. IsShortJson limit bytes.now (view v)) }
    ensures large { IsErrOf result ParseError.TooLarge ↔ (limit < length bytes.now) }
    ensures none { IfErr result (λ e. e ≢ ParseError.Memory → (d : Data) → ¬ IsShortJson limit bytes.now d) }
    ensures memory { IsErrOf result ParseError.Memory → length bytes.now ≤ limit }
    ensures json { IsErrOf result ParseError.Json → (length bytes.now ≤ limit) × ((d : Data) → ¬ IsShortJson limit bytes.now d) }
{
    if bytes.len() > limit {
        return Err(ParseError::TooLarge);
    }
    match repo_json::parse(alloc, bytes) {
        Ok(value) => Ok(value),
        Err(JsonError::Json) => Err(ParseError::Json),
        Err(JsonError::Memory) => Err(ParseError::Memory),
    }
}

/// The name under a key.
pub(crate) fn name_at(value: &Value, key: &str) -> Option<Name>
    ensures found { IfSome result (λ n. text_at key.now (view value.now) ≡ Some (hex_of n)) }
    ensures named { IfSome result (λ n. IsName n) }
    ensures none { IfNone result ((n : Name) → IsName n → text_at key.now (view value.now) ≢ Some (hex_of n)) }
{
    let Some(text) = value.get(key).and_then(Value::as_str) else {
        return None;
    };
    hex_name(text)
}

/// The version that a value tells, if it is one from 1 to `upto`: else `Version`, or `Shape` where the value tells none.
pub(crate) fn version_of(value: &Value, upto: u64) -> Result<u64, TextError>
    ensures ok { IfOk result (λ v. (number_at (codes "version") (view value.now) ≡ Some v) × IsKnownTo upto v) }
    ensures version { IsErrOf result TextError.Version → (v : ℕ) × (number_at (codes "version") (view value.now) ≡ Some v) × ¬ IsKnownTo upto v }
    ensures shape { IsErrOf result TextError.Shape → (v : ℕ) → number_at (codes "version") (view value.now) ≢ Some v }
    ensures only { IfErr result (λ e. e ≢ TextError.Version → e ≡ TextError.Shape) }
{
    let Some(version) = value.get("version").and_then(Value::as_u64) else {
        return Err(TextError::Shape);
    };
    if !is_known(version, upto) {
        return Err(TextError::Version);
    }
    Ok(version)
}
