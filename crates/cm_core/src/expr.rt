use crate::core_type::CoreType;
use crate::operator::{BinaryOp, LogicOp, UnaryOp};
use cm_base::{Boxed, Items, Scalar};

/// An expression of a unit, with numbers for names (docs/LANGUAGE.md, "Expressions"). Parentheses are gone, and
/// each implicit conversion stands as `Convert`.
///
/// A variable is numbered within its unit: its state comes first, in order, and then its locals. An endpoint is
/// numbered in the unit's `ends`, a constant in its `constants` and a function in its `functions`.
#[derive(Debug, Drop)]
pub enum CoreExpr {
    /// A number of type `int64` where it is wide, and else `int32`.
    Number { value: i64, wide: bool },
    /// `true` or `false`.
    Truth(bool),
    /// The value of a variable.
    Variable(u32),
    /// The current value of a stream or value input.
    Input(u32),
    /// A `let` of a namespace, processor or graph, or a parameter of the processor.
    Constant(u32),
    /// A field of a struct by its position.
    Field(Boxed<CoreExpr>, u32),
    /// An element of an array: first the array, then the index. Fields and indices on a variable or constant are
    /// one selection, whose indices are evaluated before the selected part is read.
    Index(Boxed<CoreExpr>, Boxed<CoreExpr>),
    /// A function and its arguments.
    Call(u32, Items<CoreExpr>),
    /// A cast or constructor: zero, the cast of one value, a struct of its fields, or an array of its elements or of
    /// one value for all.
    Construct(CoreType, Items<CoreExpr>),
    /// An implicit conversion of a scalar, which counts nothing in sizes.
    Convert(Scalar, Boxed<CoreExpr>),
    /// An operator and the type that it computes in: `Int32` or `Int64`, and `Bool` for `!`.
    Unary(UnaryOp, Scalar, Boxed<CoreExpr>),
    /// An operator, the type that it computes in, and its two sides: `Int32` or `Int64`, or `Bool` for two truth
    /// values. Both sides have that type, but for the amount of a shift, which may be of the other width.
    Binary(BinaryOp, Scalar, Boxed<CoreExpr>, Boxed<CoreExpr>),
    /// `&&` or `||` on two truth values.
    Logic(LogicOp, Boxed<CoreExpr>, Boxed<CoreExpr>),
    /// `?:` with its condition, and the two values, of which one is evaluated. All three are converted.
    Choose(Boxed<CoreExpr>, Boxed<CoreExpr>, Boxed<CoreExpr>),
}

pub type CoreExprs = Items<CoreExpr>;
