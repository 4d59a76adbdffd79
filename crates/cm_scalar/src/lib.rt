//! What a number becomes as a scalar of a kind, as when a script's number is given to an endpoint or a slot
//! is read. `convert` is the conversion that the definition `converted` states; the layers above cite both.
#![tactic(auto)]

ghost use Rattle.std.specs.Prelude.{◌≡◌};
ghost use Rattle.cm_base.specs.HostEnds.{IsLawfulScalar};
ghost use Rattle.cm_scalar.specs.Scalars.{converted, truth};

use cm_base::Scalar;
use cm_number::{floor_mod, hold, wrap32, wrap64};

/// 1 for a number other than 0, and 0 for 0.
#[tactic(auto, unfolding(cm_number::specs::Conversion::to_bool))]
fn truth_of(value: i64) -> i64
    ensures { result ≡ truth value }
{
    if value == 0 { 0 } else { 1 }
}

/// The scalar of this kind that the number is converted to: by two's complement, by the remainder that
/// isn't negative, by the nearest number of the range, or 1 for every number other than 0.
#[tactic(auto, unfolding(cm_number::specs::Conversion::to_wrap, cm_number::specs::Conversion::to_clamp))]
pub fn convert(value: i64, kind: Scalar) -> i64
    requires { IsLawfulScalar kind }
    ensures { result ≡ converted kind value }
{
    match kind {
        Scalar::Int32 => i64::from(wrap32(i128::from(value))),
        Scalar::Int64 => wrap64(i128::from(value)),
        Scalar::Bool => truth_of(value),
        Scalar::Wrap(count) => i64::from(floor_mod(value, count)),
        Scalar::Clamp(count) => hold(value, 0, i64::from(count) - 1),
    }
}

#[cfg(test)]
mod tests {
    use super::*;

    #[test]
    fn numbers_become_scalars(rt: HostRuntime) {
        assert_eq!(rt; convert(4_294_967_295, Scalar::Int32), -1);
        assert_eq!(rt; convert(-2_147_483_649, Scalar::Int32), 2_147_483_647);
        assert_eq!(rt; convert(i64::MIN, Scalar::Int64), i64::MIN);
        assert_eq!(rt; convert(-7, Scalar::Bool), 1);
        assert_eq!(rt; convert(0, Scalar::Bool), 0);
        assert_eq!(rt; convert(-1, Scalar::Wrap(5)), 4);
        assert_eq!(rt; convert(i64::MAX, Scalar::Wrap(2_147_483_647)), 1);
        assert_eq!(rt; convert(7, Scalar::Clamp(5)), 4);
        assert_eq!(rt; convert(-7, Scalar::Clamp(5)), 0);
    }
}
