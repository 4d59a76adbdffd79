ghost use Rattle.std.specs.Option.{IfSome};
ghost use Rattle.cm_base.specs.HostEnds.{IsCount, IsLawfulScalar};

use cm_base::Scalar;
use std::alloc::{AllocError, Global};

/// A count of values or elements: 1 to 2^31 - 1.
fn count_of(word: &str) -> Option<u32>
    ensures { IfSome result (λ count. IsCount count) }
{
    match word.parse::<u32>() {
        Ok(count) => {
            if count >= 1 && count <= 2_147_483_647 {
                Some(count)
            } else {
                None
            }
        }
        Err(_) => None,
    }
}

fn wrap_of(word: &str) -> Option<Scalar>
    ensures { IfSome result (λ kind. IsLawfulScalar kind) }
{
    let count = count_of(word.strip_prefix("wrap<")?.strip_suffix('>')?)?;
    Some(Scalar::Wrap(count))
}

fn clamp_of(word: &str) -> Option<Scalar>
    ensures { IfSome result (λ kind. IsLawfulScalar kind) }
{
    let count = count_of(word.strip_prefix("clamp<")?.strip_suffix('>')?)?;
    Some(Scalar::Clamp(count))
}

/// The kind of scalar that a word is, as in the language.
pub fn kind_of(word: &str) -> Option<Scalar>
    ensures { IfSome result (λ kind. IsLawfulScalar kind) }
{
    if word == "int32" {
        return Some(Scalar::Int32);
    }
    if word == "int64" {
        return Some(Scalar::Int64);
    }
    if word == "bool" {
        return Some(Scalar::Bool);
    }
    match wrap_of(word) {
        Some(kind) => Some(kind),
        None => clamp_of(word),
    }
}

/// The word of a kind.
pub fn kind_text(alloc: Global, kind: Scalar) -> Result<String, AllocError> {
    match kind {
        Scalar::Int32 => String::from_str(alloc, "int32"),
        Scalar::Int64 => String::from_str(alloc, "int64"),
        Scalar::Bool => String::from_str(alloc, "bool"),
        Scalar::Wrap(count) => format!(in alloc; "wrap<{count}>"),
        Scalar::Clamp(count) => format!(in alloc; "clamp<{count}>"),
    }
}

/// The word of a kind, or `none`.
pub fn kind_or_none(alloc: Global, found: Option<Scalar>) -> Result<String, AllocError> {
    match found {
        Some(kind) => kind_text(alloc, kind),
        None => String::from_str(alloc, "none"),
    }
}
