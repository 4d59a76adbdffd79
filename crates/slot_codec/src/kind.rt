// Whether numbers are scalars of their kinds.

ghost use Rattle.std.specs.Prelude.{◌≡◌, ◌↔◌, IsTrue, length};
ghost use Rattle.cm_base.specs.Scripts.{IsOfKind, HasShape};

use cm_base::Scalar;

/// Whether the number is a value of the kind.
pub fn is_of_kind(kind: Scalar, value: i64) -> bool
    ensures { IsTrue result ↔ IsOfKind kind value }
{
    match kind {
        Scalar::Int32 => i32::try_from(value).is_ok(),
        Scalar::Int64 => true,
        Scalar::Bool => value >= 0 && value < 2,
        Scalar::Wrap(count) => value >= 0 && value < i64::from(count),
        Scalar::Clamp(count) => value >= 0 && value < i64::from(count),
    }
}

/// Whether there are as many numbers as the shape has scalars, each a value of its kind.
pub fn has_shape(shape: &[Scalar], values: &[i64]) -> bool
    ensures { IsTrue result ↔ HasShape shape.now values.now }
{
    if shape.len() != values.len() {
        return false;
    }
    for (i, kind) in shape.iter().enumerate() {
        if !is_of_kind(*kind, values[i]) {
            return false;
        }
    }
    true
}
