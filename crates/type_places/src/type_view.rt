ghost use Rattle.std.specs.Prelude.{◌≡◌};
ghost use Rattle.cm_core.specs.Types as types;
ghost use Rattle.type_places.specs.Bytes as bytes;
ghost use Rattle.type_places.specs.Held.{held};
ghost use Rattle.type_places.specs.Views.{viewed};

use crate::widths::{fields_bytes, scalar_bytes};
use cm_base::Scalar;
use cm_core::{BaseType, CoreType, StructType};

/// A type where it stands in a program: its base, and the lengths of its arrays from the outermost on.
#[derive(Clone, Copy)]
pub struct TypeView<'a> {
    pub base: BaseType,
    pub lengths: &'a [u32],
}

// How many elements nested arrays have.
fn elements(lengths: &[u32]) -> u64
    ensures { result ≡ held (types.elements lengths.now) }
{
    match lengths {
        [] => 1,
        [first, others @ ..] => u64::from(*first).saturating_mul(elements(others)),
    }
}

// The fields of a struct; anything else has none.
fn fields_of(structs: &[StructType], base: BaseType) -> &[CoreType]
    ensures { result.now ≡ types.fields_of structs.now base }
{
    match base {
        BaseType::Struct(number) => match structs.get(number as usize) {
            Some(found) => found.fields.as_slice(),
            None => &[],
        },
        BaseType::Scalar(_) => &[],
    }
}

impl<'a> TypeView<'a> {
    /// A type of the program.
    pub fn of(ty: &'a CoreType) -> TypeView<'a>
        ensures { viewed result ≡ ty.now }
    {
        TypeView {
            base: ty.base,
            lengths: ty.lengths.as_slice(),
        }
    }

    /// A number or a truth value.
    pub fn scalar(kind: Scalar) -> TypeView<'a>
        ensures { viewed result ≡ types.scalar_type kind }
    {
        TypeView {
            base: BaseType::Scalar(kind),
            lengths: &[],
        }
    }

    /// The type of the elements of an array.
    pub fn element(self) -> TypeView<'a>
        ensures { viewed result ≡ types.element_type (viewed self.entry) }
    {
        let lengths = match self.lengths {
            [] => self.lengths,
            [_, others @ ..] => others,
        };
        TypeView {
            base: self.base,
            lengths,
        }
    }

    /// How many elements an array has, and 1 for another type.
    pub fn length(self) -> u32
        ensures { result ≡ types.length_of (viewed self.entry) }
    {
        match self.lengths {
            [] => 1,
            [first, ..] => *first,
        }
    }

    /// The type of a field, by its position.
    pub fn field(self, structs: &'a [StructType], position: u32) -> TypeView<'a>
        ensures { viewed result ≡ types.field_type structs.now (viewed self.entry) position }
    {
        match fields_of(structs, self.base).get(position as usize) {
            Some(ty) => TypeView::of(ty),
            None => TypeView::scalar(Scalar::Bool),
        }
    }

    /// How many bytes a value has, where those of the structs are known.
    pub fn bytes(self, known: &[u64]) -> u64
        ensures { result ≡ held (bytes.bytes_in known.now (viewed self.entry)) }
    {
        let one = match self.base {
            BaseType::Scalar(kind) => u64::from(scalar_bytes(kind)),
            BaseType::Struct(number) => match known.get(number as usize) {
                Some(count) => *count,
                None => 0,
            },
        };
        elements(self.lengths).saturating_mul(one)
    }

    /// How many bytes of a struct stand before a field.
    pub fn bytes_before(self, structs: &[StructType], known: &[u64], position: u32) -> u64
        ensures { result ≡ held (bytes.bytes_before known.now structs.now (viewed self.entry) position) }
    {
        let fields = fields_of(structs, self.base);
        let position = position as usize;
        if position < fields.len() {
            fields_bytes(&fields[..position], known)
        } else {
            fields_bytes(fields, known)
        }
    }
}
