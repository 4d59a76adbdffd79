ghost use Rattle.std.specs.Prelude.{◌≡◌, ◌+◌, max, true, false};
ghost use Rattle.cm_core.specs.Code.{expr_of, exprs_of};
ghost use Rattle.cm_core.specs.Types as types;
ghost use Rattle.cm_core.specs.Sizes as sizes;
ghost use Rattle.memory_layout.specs.Held.{held};
ghost use Rattle.memory_layout.specs.Scales.{scale_of};
ghost use Rattle.memory_layout.specs.Uses.{use_of, own_of};
ghost use Rattle.memory_layout.specs.Views.{viewed};

use crate::scale::Scale;
use crate::type_view::TypeView;
use crate::used::Used;
use cm_base::Scalar;
use cm_core::{BinaryOp, CoreExpr};

/// An expression that is measured: its type, whether it is a name or a selection from one, and its size.
#[derive(Clone, Copy)]
pub struct MeasuredExpr<'a> {
    pub ty: TypeView<'a>,
    pub is_place: bool,
    pub size: u64,
}

// The type of what an operator with two operands gives.
fn binary_kind(op: BinaryOp, kind: Scalar) -> Scalar
    ensures { result ≡ types.binary_kind op kind }
{
    match op {
        BinaryOp::Equal
        | BinaryOp::NotEqual
        | BinaryOp::Less
        | BinaryOp::LessOrEqual
        | BinaryOp::Greater
        | BinaryOp::GreaterOrEqual => Scalar::Bool,
        BinaryOp::Add
        | BinaryOp::Subtract
        | BinaryOp::Multiply
        | BinaryOp::Divide
        | BinaryOp::Remainder
        | BinaryOp::BitAnd
        | BinaryOp::BitOr
        | BinaryOp::BitXor
        | BinaryOp::ShiftLeft
        | BinaryOp::ShiftRight
        | BinaryOp::ShiftRightZero => kind,
    }
}

impl<'a> Scale<'a> {
    /// A name.
    fn name(&self, used: Used, ty: TypeView<'a>, is_constant: bool) -> MeasuredExpr<'a>
        ensures ty { result.ty ≡ ty.entry }
        ensures place { result.is_place ≡ true }
        ensures size { result.size ≡ held (own_of (max 1 (types.count_of self.now.structs.now (viewed ty.entry))) (use_of used) true is_constant) }
    {
        MeasuredExpr {
            ty,
            is_place: true,
            size: self.own(used, ty, true, is_constant),
        }
    }

    /// A value with its parts, which have this size.
    fn value(&self, used: Used, ty: TypeView<'a>, parts: u64) -> MeasuredExpr<'a>
        ensures ty { result.ty ≡ ty.entry }
        ensures place { result.is_place ≡ false }
        ensures size { result.size ≡ held (own_of (max 1 (types.count_of self.now.structs.now (viewed ty.entry))) (use_of used) false false + parts) }
    {
        MeasuredExpr {
            ty,
            is_place: false,
            size: self.own(used, ty, false, false).saturating_add(parts),
        }
    }
}

/// Recursion goes down the tree.
#[cycle(measured)]
#[tactic(auto, using(cm_core::specs::Views::expr_views, crate::proofs::Own::own_is))]
pub fn measured_expr<'a>(scale: &Scale<'a>, used: Used, expr: &'a CoreExpr) -> MeasuredExpr<'a>
    ensures ty { viewed result.ty ≡ types.type_of scale.now.structs.now scale.now.unit.now (expr_of expr.now) }
    ensures place { result.is_place ≡ types.is_place (expr_of expr.now) }
    ensures size { result.size ≡ held (sizes.expr_size (scale_of scale.now) (use_of used) (expr_of expr.now)) }
{
    match expr {
        CoreExpr::Number { value: _, wide } => {
            let kind = if *wide { Scalar::Int64 } else { Scalar::Int32 };
            scale.value(used, TypeView::scalar(kind), 0)
        }
        CoreExpr::Truth(_) => scale.value(used, TypeView::scalar(Scalar::Bool), 0),
        CoreExpr::Variable(number) => scale.name(used, scale.variable_type(*number), false),
        CoreExpr::Input(number) => scale.name(used, scale.end_type(*number), false),
        CoreExpr::Constant(number) => scale.name(used, scale.constant_type(*number), true),
        CoreExpr::Field(whole, position) => {
            let part = measured_expr(scale, used.of_part(expr), whole.get());
            let ty = part.ty.field(scale.structs, *position);
            MeasuredExpr {
                ty,
                is_place: part.is_place,
                size: scale
                    .own(used, ty, part.is_place, false)
                    .saturating_add(part.size),
            }
        }
        CoreExpr::Index(whole, index) => {
            let part = measured_expr(scale, used.of_part(expr), whole.get());
            let place = measured_expr(scale, Used::Value, index.get());
            let ty = part.ty.element();
            MeasuredExpr {
                ty,
                is_place: part.is_place,
                size: scale
                    .own(used, ty, part.is_place, false)
                    .saturating_add(part.size)
                    .saturating_add(place.size),
            }
        }
        CoreExpr::Call(function, args) => {
            let parts = sizes_of(scale, args.as_slice());
            MeasuredExpr {
                ty: scale.result_type(*function),
                is_place: false,
                size: scale.call(*function).saturating_add(parts),
            }
        }
        CoreExpr::Construct(ty, values) => {
            let parts = sizes_of(scale, values.as_slice());
            scale.value(used, TypeView::of(ty), parts)
        }
        CoreExpr::Convert(kind, value) => {
            let part = measured_expr(scale, Used::Value, value.get());
            MeasuredExpr {
                ty: TypeView::scalar(*kind),
                is_place: false,
                size: part.size,
            }
        }
        CoreExpr::Unary(_, kind, value) => {
            let part = measured_expr(scale, Used::Value, value.get());
            scale.value(Used::Value, TypeView::scalar(*kind), part.size)
        }
        CoreExpr::Binary(op, kind, left, right) => {
            let one = measured_expr(scale, Used::Value, left.get());
            let other = measured_expr(scale, Used::Value, right.get());
            let ty = TypeView::scalar(binary_kind(*op, *kind));
            scale.value(Used::Value, ty, one.size.saturating_add(other.size))
        }
        CoreExpr::Logic(_, left, right) => {
            let one = measured_expr(scale, Used::Value, left.get());
            let other = measured_expr(scale, Used::Value, right.get());
            let ty = TypeView::scalar(Scalar::Bool);
            scale.value(Used::Value, ty, one.size.saturating_add(other.size))
        }
        CoreExpr::Choose(test, left, right) => {
            let tested = measured_expr(scale, Used::Value, test.get());
            let one = measured_expr(scale, Used::Value, left.get());
            let other = measured_expr(scale, Used::Value, right.get());
            let parts = tested
                .size
                .saturating_add(one.size)
                .saturating_add(other.size);
            scale.value(Used::Value, one.ty, parts)
        }
    }
}

/// The sizes of values, added up.
#[cycle(measured)]
pub fn sizes_of<'a>(scale: &Scale<'a>, all: &'a [CoreExpr]) -> u64
    ensures { result ≡ held (sizes.exprs_size (scale_of scale.now) (exprs_of all.now)) }
{
    let mut size: u64 = 0;
    let mut rest = all;
    while let Some((first, others)) = rest.split_first() {
        size = size.saturating_add(measured_expr(scale, Used::Value, first).size);
        rest = others;
    }
    size
}
