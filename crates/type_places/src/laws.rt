//! What holds of places: each function is a theorem, and does nothing.
ghost use Rattle.std.specs.Prelude.{◌≡◌, List};
ghost use Rattle.cm_core.specs.declared.core_type.CoreType.{CoreType};
ghost use Rattle.cm_core.specs.declared.core_type.StructType.{StructType};
ghost use Rattle.cm_core.specs.Sizes.{bytes_of};
ghost use Rattle.cm_core.specs.Types.{shape_of};
ghost use Rattle.type_places.specs.Bytes.{bytes_in, bytes_of_structs};

/// A type has the bytes of its scalars.
pub fn widths_are_of_shapes()
    ensures { (structs : List StructType) (ty : CoreType) → bytes_in (bytes_of_structs structs) ty ≡ bytes_of (shape_of structs ty) }
{}
