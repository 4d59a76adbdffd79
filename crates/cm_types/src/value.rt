ghost use Rattle.std.specs.Prelude.{◌≡◌, IfOk};
ghost use Rattle.cm_meaning.specs.Types.{number_of};
ghost use Rattle.cm_types.specs.Meant.{meant_value};

use cm_base::{Items, NoMemory};
use std::alloc::Global;

/// A value of a constant: docs/LANGUAGE.md, "Types". Contracts see what it means by `meant_value` of `specs/Meant`.
#[derive(Debug, Drop)]
pub enum Value {
    /// A number of any number type.
    Number(i64),
    /// A truth value.
    Truth(bool),
    /// The values of a struct's fields or of an array's elements, in order.
    Many(Items<Value>),
}

impl Value {
    /// The same value again.
    #[cycle(copy_value)]
    pub fn copy(&self, alloc: Global) -> Result<Value, NoMemory>
        ensures { IfOk result (λ again. again ≡ self.now) }
    {
        match self {
            Value::Number(number) => Ok(Value::Number(*number)),
            Value::Truth(truth) => Ok(Value::Truth(*truth)),
            Value::Many(all) => Ok(Value::Many(copy_values(all.as_slice(), alloc)?)),
        }
    }

    /// The number that a scalar is, a truth value being 0 or 1.
    #[tactic(auto, using(crate::specs::Meant::meant_scalars))]
    pub fn number(&self) -> Option<i64>
        ensures { result ≡ number_of (meant_value self.now) }
    {
        match self {
            Value::Number(number) => Some(*number),
            Value::Truth(truth) => Some(i64::from(*truth)),
            Value::Many(_) => None,
        }
    }
}

#[cycle(copy_value)]
fn copy_values(values: &[Value], alloc: Global) -> Result<Items<Value>, NoMemory>
    ensures { IfOk result (λ again. again ≡ values.now) }
{
    let mut copies = Vec::with_capacity(alloc, values.len())?;
    for value in values {
        copies.push(value.copy(alloc)?)?;
    }
    Ok(Items::from_vec(copies))
}
