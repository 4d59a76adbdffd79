//! The JSON value that a file's bytes stand for (RFC 8259): manifests, scripts and state files of version 1 are
//! read by it. The layers above use the contract of `value_of`, which meets the definition of that name in
//! `specs/Value`; the value is a `serde_json::Value`, which contracts see as its data. `specs/Form` has the words by
//! which scripts and state files are defined on that data: a file is read, or the first rule that fails is named.
#![tactic(auto)]

ghost use Rattle.std.specs.Prelude.{◌≡◌, ◌<◌, IfOk, IfErr, IfSome, length, option_map};
ghost use Rattle.serde_json.specs.Read.{read};
ghost use Rattle.serde_json.specs.View.{view};
ghost use Rattle.json_value.specs.Value.{value_of, IsSomeText};

mod form;

use cm_base::NoMemory;
pub use form::{refused, told};
use serde_json::Value;
use std::alloc::Global;

/// The JSON value that a file's bytes stand for. There is none where they are not UTF-8.
pub fn value_of(alloc: Global, bytes: &[u8]) -> Result<Option<Value>, NoMemory>
    ensures value { IfOk result (λ value. option_map view value ≡ value_of bytes.now) }
    // Only a text that isn't empty has a value, and memory is wanted for no other.
    ensures text { IfOk result (λ value. IfSome value (λ _. IsSomeText bytes.now)) }
    ensures memory { IfErr result (λ _. IsSomeText bytes.now) }
{
    match str::from_utf8(bytes) {
        Ok(text) => value_of_text(alloc, text),
        Err(_) => Ok(None),
    }
}

fn value_of_text(alloc: Global, text: &str) -> Result<Option<Value>, NoMemory>
    ensures value { IfOk result (λ value. option_map view value ≡ read text.now) }
    ensures memory { IfErr result (λ _. 0 < length text.now) }
{
    match Value::from_str(alloc, text) {
        Ok(value) => Ok(Some(value)),
        Err(error) => if error.is_memory() {
            Err(NoMemory)
        } else {
            Ok(None)
        },
    }
}
