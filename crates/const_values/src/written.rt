ghost use Rattle.std.specs.Prelude.{IfOk};
ghost use Rattle.cm_types.specs.Lawful.{IsLawfulType};
ghost use Rattle.cm_types.specs.Meant.{meant_type};
ghost use Rattle.const_values.specs.Names.{IsSoundType, AreSoundArguments};
ghost use Rattle.const_values.specs.Written.{TellsType, GivesSmall};

use crate::construct::is_small;
use crate::evaluate::{base_type, counts};
use crate::names::{ConstNames, Env, type_named};
use crate::places::base_place;
use crate::sizes::arrays;
use cm_base::{Cause, Fail, Place};
use cm_tree::TypeExpr;
use cm_types::CmType;
use std::alloc::Global;

// A type that is written at the place, where it has no more scalars than one may have.
fn small(alloc: Global, at: Place, ty: CmType) -> Result<CmType, Fail>
    requires { IsLawfulType (meant_type ty) }
    ensures told { GivesSmall at (meant_type ty) result }
    ensures sound { IfOk result (λ found. IsSoundType (meant_type found)) }
{
    if !is_small(&ty) {
        return Err(Fail::refused(alloc, Cause::TooManyElements, at));
    }
    Ok(ty)
}

/// The type that is written: a base type or a named one, and the sizes of its arrays. It is refused exactly where something is
/// wrong with it: by `NotConstant`, `TypeMismatch` or `SizeRange` at a size or at the count of a `wrap` or `clamp`, by
/// `TooManyElements` at its first token, or for what is wrong in one of these expressions.
pub fn type_written<N: ConstNames>(
    alloc: Global,
    ty: &TypeExpr,
    env: &Env,
    names: &N,
) -> Result<CmType, Fail>
    requires { AreSoundArguments env.now.params }
    ensures told { TellsType (N.finds names.now) env.now.params ty.now result }
    ensures sound { IfOk result (λ found. IsSoundType (meant_type found)) }
{
    match ty {
        TypeExpr::Base(base, sizes) => {
            let element = base_type(alloc, base, env, names)?;
            let counts = counts(alloc, sizes.as_slice(), env, names)?;
            let whole = arrays(alloc, element, counts)?;
            small(alloc, base_place(base), whole)
        }
        TypeExpr::Named(path, sizes) => {
            let Some(element) = type_named(path, env, names) else {
                return Err(Fail::refused(alloc, Cause::NotConstant, path.place));
            };
            let counts = counts(alloc, sizes.as_slice(), env, names)?;
            let whole = arrays(alloc, element.copy(alloc)?, counts)?;
            small(alloc, path.place, whole)
        }
    }
}
