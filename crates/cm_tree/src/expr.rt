use crate::operator::{Binary, Unary};
use crate::path::{Path, Word};
use cm_base::{Boxed, Items, Place};

/// An expression: docs/LANGUAGE.md, "Expressions". A place is that of the first token; where none is written, the
/// first part has it.
#[cycle(expr)]
#[derive(Debug, Drop)]
pub enum Expr {
    /// A number with its value, and whether its type is `int64`; else it is `int32`.
    Number(Place, i64, bool),
    /// `true` or `false`
    Truth(Place, bool),
    /// A path where a value is read.
    Name(Path),
    /// `f(a, b)`
    Call(Path, Items<Expr>),
    /// `int[2](a, b)`: the base type, its sizes and the values.
    Construct(Base, Items<Expr>, Items<Expr>),
    /// `(a)`
    Paren(Place, Boxed<Expr>),
    /// `a.field`
    Field(Place, Boxed<Expr>, Word),
    /// `a[index]`
    Index(Place, Boxed<Expr>, Boxed<Expr>),
    /// `-a`
    Unary(Place, Unary, Boxed<Expr>),
    /// `a + b`
    Binary(Place, Binary, Boxed<Expr>, Boxed<Expr>),
    /// `test ? a : b`
    Choice(Place, Boxed<Expr>, Boxed<Expr>, Boxed<Expr>),
}

/// A base type. `Wrap` and `Clamp` have the count of their values.
#[cycle(expr)]
#[derive(Debug, Drop)]
pub enum Base {
    /// `bool`
    Bool(Place),
    /// `int`
    Int(Place),
    /// `int32`
    Int32(Place),
    /// `int64`
    Int64(Place),
    /// `wrap<n>`
    Wrap(Place, Boxed<Expr>),
    /// `clamp<n>`
    Clamp(Place, Boxed<Expr>),
}
