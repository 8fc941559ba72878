//! The config of a repository, and its text.

ghost use Rattle.std.specs.Prelude.{◌≡◌, ◌≢◌, ◌<◌, ◌≤◌, ◌^◌, ◌↔◌, ℕ, length, codes, Some, Err, IfOk, IfErr, IfSome, IfNone, IsErrOf, IsTrue, string_bytes};
ghost use Rattle.serde_json.specs.View.{view};
ghost use Rattle.hex.specs.Hex.{encode_lower};
ghost use Rattle.repo_name.specs.Naming.{IsInstance};
ghost use Rattle.repo_name.specs.declared.names.Instance.{Instance};
ghost use Rattle.repo_chunk.specs.Parameters.{AreLawful};
ghost use Rattle.repo_json.specs.JsonText.{number_at, text_at};
ghost use Rattle.repo_tree.specs.ConfigText.{HasConfig, IsTarget, AreAllowed, IsConfigText, config_data, config_text, ConfigFault, ConfigIsUnwritable};
ghost use Rattle.repo_tree.specs.Versions.{greatest_version};
ghost use Rattle.repo_tree.specs.declared.configs.Config.{Config};
ghost use Rattle.repo_tree.specs.declared.faults.TextError.{TextError};

use crate::faults::TextError;
use crate::json::{parse, version_of};
use crate::versions::{GREATEST_VERSION, is_known};
use hex::FromHex;
use repo_chunk::Params;
use repo_name::{GREATEST_TARGET, Instance, LEAST_TARGET, TEXT_LIMIT};
use serde_json::{Value, json};
use std::alloc::{AllocError, Global};

/// What is fixed when a repository is made.
#[derive(Clone, Copy, Debug, PartialEq, Eq)]
pub struct Config {
    /// The version of the formats, 1 or 2.
    pub version: u64,
    /// What tells the repository from others.
    pub id: Instance,
    /// The rule by which files are cut into chunks.
    pub params: Params,
    /// How many bytes of blobs a pack has before the next one is begun, 1,024 to 16,777,216.
    pub target: u64,
}

/// The instance of which this is the text: 32 digits in lower case.
fn instance_of(text: &str) -> Option<Instance>
    ensures found { IfSome result (λ i. IsInstance i × (text.now ≡ encode_lower i.0)) }
    ensures none { IfNone result ((i : Instance) → IsInstance i → text.now ≢ encode_lower i.0) }
{
    let Ok(bytes) = <[u8; 16] as FromHex>::from_hex(text) else {
        return None;
    };
    let mut written = [0u8; 32];
    hex::encode_to_slice(&bytes, &mut written).unwrap();
    if text.as_bytes() == written.as_slice() {
        Some(Instance(bytes))
    } else {
        None
    }
}

/// An instance's 32 digits, in lower case.
fn digits_of(alloc: Global, id: Instance) -> Result<String, AllocError>
    ensures text { IfOk result (λ text. string_bytes text ≡ encode_lower id.0) }
    ensures instance { IsInstance id }
{
    hex::encode(alloc, &id.to_bytes())
}

/// Whether a pack may be closed at this length.
fn is_target(target: u64) -> bool
    ensures { IsTrue result ↔ IsTarget target }
{
    (LEAST_TARGET..=GREATEST_TARGET).contains(&target)
}

/// The config whose members a value of a known version has.
fn config_of(value: &Value, version: u64) -> Result<Config, TextError>
    requires { number_at (codes "version") (view value.now) ≡ Some version }
    ensures ok { IfOk result (HasConfig (view value.now)) }
    ensures version { IfOk result (λ c. c.version ≡ version) }
    ensures allowed { IfOk result AreAllowed }
    ensures shape { IsErrOf result TextError.Shape → (c : Config) → ¬ HasConfig (view value.now) c }
    ensures params { IsErrOf result TextError.Params → (c : Config) × HasConfig (view value.now) c × (c.version ≡ version) × ¬ AreAllowed c }
    ensures only { IfErr result (λ e. e ≢ TextError.Shape → e ≡ TextError.Params) }
{
    let Some(id) = value
        .get("id")
        .and_then(Value::as_str)
        .and_then(instance_of)
    else {
        return Err(TextError::Shape);
    };
    let Some(min) = value.get("chunk_min").and_then(Value::as_u64) else {
        return Err(TextError::Shape);
    };
    let Some(max) = value.get("chunk_max").and_then(Value::as_u64) else {
        return Err(TextError::Shape);
    };
    let Some(bits) = value.get("chunk_bits").and_then(Value::as_u64) else {
        return Err(TextError::Shape);
    };
    let Some(target) = value.get("pack_target").and_then(Value::as_u64) else {
        return Err(TextError::Shape);
    };
    let Ok(params) = Params::new(min, max, bits) else {
        return Err(TextError::Params);
    };
    if !is_target(target) {
        return Err(TextError::Params);
    }
    Ok(Config {
        version,
        id,
        params,
        target,
    })
}

/// The value of a config's text.
fn config_value(alloc: Global, config: &Config) -> Result<Value, AllocError>
    ensures value { IfOk result (λ v. view v ≡ config_data config.now) }
    ensures lawful { AreLawful config.now.params }
    ensures instance { IsInstance config.now.id }
{
    let (min, max, bits) = (
        config.params.min(),
        config.params.max(),
        config.params.bits(),
    );
    let id = digits_of(alloc, config.id)?;
    let id = id.as_str();
    let target = config.target;
    let version = config.version;
    json!(in alloc; {
        "chunk_bits": bits, "chunk_max": max, "chunk_min": min, "id": id, "pack_target": target, "version": version
    })
}

impl Config {
    /// The config of which this is the text, for a reader that knows the versions from 1 to `upto`: of any other it is `Version`.
    /// It asks for memory once it has seen that the text isn't too large.
    pub fn read_upto(alloc: Global, bytes: &[u8], upto: u64) -> Result<Config, TextError>
        requires { upto ≤ greatest_version }
        ensures ok { IfOk result (λ c. IsConfigText bytes.now c × (c.version ≤ upto)) }
        ensures fault { IfErr result (ConfigFault upto bytes.now) }
        ensures none { IfErr result (λ e. e ≢ TextError.Memory → (c : Config) → c.version ≤ upto → ¬ IsConfigText bytes.now c) }
    {
        let value = parse(alloc, bytes, TEXT_LIMIT)?;
        let version = version_of(&value, upto)?;
        config_of(&value, version)
    }

    /// The config of which this is the text, of any version that there is. Its faults are those of [`read_upto`](Self::read_upto).
    pub fn read(alloc: Global, bytes: &[u8]) -> Result<Config, TextError>
        ensures ok { IfOk result (IsConfigText bytes.now) }
        ensures fault { IfErr result (ConfigFault greatest_version bytes.now) }
        ensures none { IfErr result (λ e. e ≢ TextError.Memory → (c : Config) → ¬ IsConfigText bytes.now c) }
    {
        Config::read_upto(alloc, bytes, GREATEST_VERSION)
    }

    /// The config's text. Its version has to be 1 or 2 and its target within its limits, else it is `Version` or
    /// `Params`; a text within these is never too large.
    pub fn write(&self, alloc: Global) -> Result<Vec<u8>, TextError>
        ensures text { IfOk result (λ text. text.items ≡ config_text self.now) }
        ensures reads { IfOk result (λ text. IsConfigText text.items self.now) }
        ensures fault { IfErr result (ConfigIsUnwritable self.now) }
    {
        if !is_known(self.version, GREATEST_VERSION) {
            return Err(TextError::Version);
        }
        if !is_target(self.target) {
            return Err(TextError::Params);
        }
        let value = config_value(alloc, self)?;
        Ok(value.to_vec(alloc)?)
    }
}
