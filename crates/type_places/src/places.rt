ghost use Rattle.std.specs.Prelude.{◌≡◌, map};
ghost use Rattle.type_places.specs.Bytes.{bytes_of_structs};
ghost use Rattle.type_places.specs.Held.{held};
ghost use Rattle.type_places.specs.Places.{type_bytes, field_place};
ghost use Rattle.type_places.specs.Views.{viewed};

use crate::type_view::TypeView;
use cm_core::StructType;

/// The structs of a program with the bytes of each, as `struct_bytes` gives them.
#[derive(Clone, Copy)]
pub struct Places<'a> {
    pub structs: &'a [StructType],
    pub known: &'a [u64],
    ghost counted: { known.now ≡ map held (bytes_of_structs structs.now) },
}

impl<'a> Places<'a> {
    /// How many bytes a value of a type has.
    pub fn bytes(self, ty: TypeView<'_>) -> u64
        ensures { result ≡ held (type_bytes self.entry.structs.now (viewed ty.entry)) }
    {
        ty.bytes(self.known)
    }

    /// How many bytes of a struct stand before the field at this position.
    pub fn before(self, ty: TypeView<'_>, position: u32) -> u64
        ensures { result ≡ held (field_place self.entry.structs.now (viewed ty.entry) position) }
    {
        ty.bytes_before(self.structs, self.known, position)
    }
}
