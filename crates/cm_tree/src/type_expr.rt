use crate::expr::{Base, Expr};
use crate::path::{Path, Word};
use cm_base::Items;

/// A written type: a base type or a named one, and the sizes of its arrays from left to right.
#[derive(Debug, Drop)]
pub enum TypeExpr {
    /// `int[2][3]`
    Base(Base, Items<Expr>),
    /// `T[2]`
    Named(Path, Items<Expr>),
}

/// An argument of a node: a base type with its sizes, or an expression. A named type is a path, so an expression.
#[derive(Debug, Drop)]
pub enum Arg {
    Type(Base, Items<Expr>),
    Value(Expr),
}

/// A type and a name that is declared with it.
#[derive(Debug, Drop)]
pub struct Typed {
    pub ty: TypeExpr,
    pub name: Word,
}
