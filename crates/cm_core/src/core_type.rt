ghost use Rattle.std.specs.Prelude.{IsTrue, ◌↔◌, ◌≡◌};

use crate::Counts;
use cm_base::{Items, Scalar};

/// A type without its arrays: a scalar, or a struct by its number in `Program::structs`.
#[derive(Clone, Copy, Debug, PartialEq, Eq)]
pub enum BaseType {
    Scalar(Scalar),
    Struct(u32),
}

/// A type. `lengths` has the lengths of an array from the outermost on: `T[a][b]` is `a` elements of `T[b]`. A type
/// has no depth, so that types of any nesting are compared and dropped without recursion, and a struct is a number,
/// so that structs within structs aren't written out. Two types are the same exactly where they are equal.
#[derive(Debug, Drop)]
pub struct CoreType {
    pub base: BaseType,
    pub lengths: Counts,
}

pub type CoreTypes = Items<CoreType>;

impl CoreType {
    /// Whether both are the same type.
    pub fn is_same(&self, other: &CoreType) -> bool
        ensures { IsTrue result ↔ (self.now ≡ other.now) }
    {
        self.base == other.base && self.lengths.as_slice() == other.lengths.as_slice()
    }
}

/// A struct: the types of its fields in order, which name only structs of lower numbers. Two structs of one
/// declaration whose fields have the same types have one number.
#[derive(Debug, Drop)]
pub struct StructType {
    pub fields: CoreTypes,
}

pub type Structs = Items<StructType>;
