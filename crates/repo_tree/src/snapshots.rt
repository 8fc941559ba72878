//! Snapshots, and their texts.

ghost use Rattle.std.specs.Prelude.{◌≡◌, ◌≢◌, ◌<◌, ◌≤◌, ◌^◌, length, codes, Some, Err, IfOk, IfErr, IsErrOf};
ghost use Rattle.serde_json.specs.Data.{Data};
ghost use Rattle.serde_json.specs.View.{view};
ghost use Rattle.repo_name.specs.Naming.{IsName};
ghost use Rattle.repo_json.specs.JsonText.{number_at};
ghost use Rattle.repo_tree.specs.SnapshotText.{HasSnapshot, IsSnapshotText, snapshot_data, snapshot_text, SnapshotFault, SnapshotIsUnwritable};
ghost use Rattle.repo_tree.specs.Versions.{greatest_version};
ghost use Rattle.repo_tree.specs.declared.snapshots.Snapshot.{Snapshot};
ghost use Rattle.repo_tree.specs.declared.faults.TextError.{TextError};

use crate::faults::TextError;
use crate::json::{name_at, parse, version_of};
use crate::versions::{GREATEST_VERSION, is_known};
use repo_name::{Name, TEXT_LIMIT, Text, Token, is_host};
use serde_json::{Value, json};
use std::alloc::{AllocError, Global};

/// What a backup of a host left: the name of a tree.
#[derive(Clone, Debug, Drop)]
pub struct Snapshot {
    /// The name of the client's machine, 1 to 255 bytes.
    pub host: Text,
    /// Seconds since 1970, by the client's clock.
    pub time: u64,
    /// The token of the lock under which the backup ran.
    pub token: Token,
    /// The name of the root's tree blob.
    pub tree: Name,
    /// The version of the formats, 1 or 2.
    pub version: u64,
}

/// The snapshot whose members a value of a known version has.
fn snapshot_of(alloc: Global, value: &Value, version: u64) -> Result<Snapshot, TextError>
    requires { number_at (codes "version") (view value.now) ≡ Some version }
    ensures ok { IfOk result (λ s. HasSnapshot (view value.now) s) }
    ensures version { IfOk result (λ s. s.version ≡ version) }
    ensures shape { IsErrOf result TextError.Shape → (s : Snapshot) → ¬ HasSnapshot (view value.now) s }
    ensures only { IfErr result (λ e. e ≢ TextError.Shape → e ≡ TextError.Memory) }
{
    let Some(host) = value.get("host").and_then(Value::as_str) else {
        return Err(TextError::Shape);
    };
    if !is_host(host) {
        return Err(TextError::Shape);
    }
    let Some(time) = value.get("time").and_then(Value::as_u64) else {
        return Err(TextError::Shape);
    };
    let Some(token) = value.get("token").and_then(Value::as_u64) else {
        return Err(TextError::Shape);
    };
    let Some(tree) = name_at(value, "tree") else {
        return Err(TextError::Shape);
    };
    let host = Text::of(String::from_str(alloc, host)?);
    let token = Token(token);
    Ok(Snapshot {
        host,
        time,
        token,
        tree,
        version,
    })
}

/// The value of a snapshot's text.
fn snapshot_value(alloc: Global, snapshot: &Snapshot) -> Result<Value, AllocError>
    ensures value { IfOk result (λ v. view v ≡ snapshot_data snapshot.now) }
    ensures time { snapshot.now.time < 2 ^ 64 }
    ensures token { snapshot.now.token.0 < 2 ^ 64 }
    ensures named { IsName snapshot.now.tree }
{
    let host = snapshot.host.as_str();
    let time = snapshot.time;
    let token = snapshot.token.0;
    let tree = snapshot.tree.to_hex(alloc)?;
    let tree = tree.as_str();
    let version = snapshot.version;
    json!(in alloc; {"host": host, "time": time, "token": token, "tree": tree, "version": version})
}

impl Snapshot {
    /// The snapshot of which this is the text, for a reader that knows the versions from 1 to `upto`: of any other it is `Version`.
    /// It asks for memory once it has seen that the text isn't too large.
    pub fn read_upto(alloc: Global, bytes: &[u8], upto: u64) -> Result<Snapshot, TextError>
        requires { upto ≤ greatest_version }
        ensures ok { IfOk result (λ s. IsSnapshotText bytes.now s × (s.version ≤ upto)) }
        ensures fault { IfErr result (SnapshotFault upto bytes.now) }
        ensures none { IfErr result (λ e. e ≢ TextError.Memory → (s : Snapshot) → s.version ≤ upto → ¬ IsSnapshotText bytes.now s) }
    {
        let value = parse(alloc, bytes, TEXT_LIMIT)?;
        let version = version_of(&value, upto)?;
        snapshot_of(alloc, &value, version)
    }

    /// The snapshot of which this is the text, of any version that there is. Its faults are those of [`read_upto`](Self::read_upto).
    pub fn read(alloc: Global, bytes: &[u8]) -> Result<Snapshot, TextError>
        ensures ok { IfOk result (IsSnapshotText bytes.now) }
        ensures fault { IfErr result (SnapshotFault greatest_version bytes.now) }
        ensures none { IfErr result (λ e. e ≢ TextError.Memory → (s : Snapshot) → ¬ IsSnapshotText bytes.now s) }
    {
        Snapshot::read_upto(alloc, bytes, GREATEST_VERSION)
    }

    /// The snapshot's text. Its version has to be 1 or 2 and its host within its limits, else it is `Version` or `Shape`;
    /// a text within these is never too large.
    pub fn write(&self, alloc: Global) -> Result<Vec<u8>, TextError>
        ensures text { IfOk result (λ text. text.items ≡ snapshot_text self.now) }
        ensures reads { IfOk result (λ text. IsSnapshotText text.items self.now) }
        ensures fault { IfErr result (SnapshotIsUnwritable self.now) }
    {
        if !is_known(self.version, GREATEST_VERSION) {
            return Err(TextError::Version);
        }
        if !is_host(self.host.as_str()) {
            return Err(TextError::Shape);
        }
        let value = snapshot_value(alloc, self)?;
        Ok(value.to_vec(alloc)?)
    }
}
