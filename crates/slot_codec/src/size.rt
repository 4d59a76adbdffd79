// How many bytes scalars take.

ghost use Rattle.std.specs.Prelude.{◌≡◌, ◌*◌, ◌≤◌, ◌<◌, ◌^◌, length};
ghost use Rattle.wasm_tree.specs.Section.{scalar_size, shape_size};

use cm_base::Scalar;

/// How many bytes a scalar of the kind takes.
#[inline(always)]
pub fn size_of(kind: Scalar) -> usize
    ensures { result ≡ scalar_size kind }
{
    match kind {
        Scalar::Int64 => 8,
        Scalar::Int32 | Scalar::Bool | Scalar::Wrap(_) | Scalar::Clamp(_) => 4,
    }
}

/// How many bytes the scalars of a shape take.
pub fn shape_bytes(shape: &[Scalar]) -> usize
    requires { length shape.now < 2 ^ 32 }
    ensures size { result ≡ shape_size shape.now }
    ensures few { result ≤ 8 * length shape.now }
{
    let mut size = 0;
    for kind in shape {
        size += size_of(*kind);
    }
    size
}
