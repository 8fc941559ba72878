//! Bytes that are JSON.

ghost use Rattle.std.specs.Prelude.{◌≢◌, IfOk, IfErr};
ghost use Rattle.serde_json.specs.Data.{Data};
ghost use Rattle.serde_json.specs.View.{view};
ghost use Rattle.repo_json.specs.JsonText.{IsJson};
ghost use Rattle.repo_json.specs.declared.parsing.JsonError.{JsonError};

use serde_json::Value;
use std::alloc::Global;
use thiserror::Error;

/// Why bytes aren't read.
#[derive(Clone, Copy, Debug, PartialEq, Eq, Error)]
pub enum JsonError {
    /// The bytes are no JSON (RFC 8259).
    #[error("the bytes are no JSON")]
    Json,
    #[error("out of memory")]
    Memory,
}

/// The value that the bytes read as. `Json` comes only where they read as none.
pub fn parse(alloc: Global, bytes: &[u8]) -> Result<Value, JsonError>
    ensures ok { IfOk result (λ v. IsJson bytes.now (view v)) }
    ensures none { IfErr result (λ e. e ≢ JsonError.Memory → (d : Data) → ¬ IsJson bytes.now d) }
{
    match Value::from_slice(alloc, bytes) {
        Ok(value) => Ok(value),
        Err(error) => {
            if error.is_memory() {
                return Err(JsonError::Memory);
            }
            Err(JsonError::Json)
        }
    }
}
