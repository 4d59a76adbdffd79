use crate::expr::Expr;
use crate::operator::{Assign, Change};
use crate::path::{Path, Word};
use crate::type_expr::TypeExpr;
use cm_base::{Items, Place};

/// A name with its value: `a = 1`.
#[derive(Debug, Drop)]
pub struct Init {
    pub name: Word,
    pub value: Expr,
}

/// A name with its value, if one is written: `a = 1` or `a`.
#[derive(Debug, Drop)]
pub struct Var {
    pub name: Word,
    pub value: Option<Expr>,
}

/// A declaration in a block, one name at least.
#[derive(Debug, Drop)]
pub enum Local {
    /// `let a = 1, b = 2`
    Let(Place, Items<Init>),
    /// `var a = 1, b = 2`
    Var(Place, Items<Init>),
    /// `int a, b = 2`
    Typed(TypeExpr, Items<Var>),
}

/// A step from a variable to a part of it.
#[derive(Debug, Drop)]
pub enum Step {
    /// `.field`
    Field(Word),
    /// `[index]`, with the place of the bracket.
    Index(Place, Expr),
}

/// What is assigned: a variable, or a part of it, the steps from left to right.
#[derive(Debug, Drop)]
pub struct Target {
    pub name: Word,
    pub steps: Items<Step>,
}

/// A statement that may stand in the head of a `for`.
#[derive(Debug, Drop)]
pub enum Simple {
    /// `a = 1`, `a += 1`
    Assign(Target, Assign, Expr),
    /// `a++`
    After(Target, Change),
    /// `++a`
    Before(Place, Change, Target),
    /// `f(a, b)`
    Call(Path, Items<Expr>),
}
