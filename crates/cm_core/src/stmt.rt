use crate::expr::{CoreExpr, CoreExprs};
use crate::operator::{BinaryOp, CountOp};
use cm_base::{Boxed, Items, Place, Scalar};

/// A declared local by its number as a variable, and its initial value where one is written.
#[derive(Debug, Drop)]
pub struct Declared {
    pub variable: u32,
    pub first: Option<CoreExpr>,
}

pub type DeclaredLocals = Items<Declared>;

/// A statement of a unit, with numbers for names as in `CoreExpr` (docs/LANGUAGE.md, "Statements"). A target is a
/// variable, or a field or element of a target. Each loop keeps the place of its first token.
#[derive(Debug, Drop)]
pub enum CoreStmt {
    /// What does nothing and counts nothing: a `static_assert`, an `else` or a part of a `for` that isn't written.
    Nothing,
    /// `;`
    Empty,
    Block(Items<CoreStmt>),
    /// The locals of one declaration.
    Locals(DeclaredLocals),
    /// `=` with its target and the converted value.
    Assign(CoreExpr, CoreExpr),
    /// An operator sign that ends in `=`: the target, the operator, the type that it computes in, and the right side.
    Update(CoreExpr, BinaryOp, Scalar, CoreExpr),
    /// `++` or `--`.
    Count(CountOp, CoreExpr),
    /// A call as a statement.
    Call(u32, CoreExprs),
    /// The condition, what is done where it holds, and what is done where it doesn't.
    If(CoreExpr, Boxed<CoreStmt>, Boxed<CoreStmt>),
    /// `loop` without a count.
    Loop(Boxed<CoreStmt>, Place),
    /// `loop` with the variable that counts down what is left, and the count.
    Times(u32, CoreExpr, Boxed<CoreStmt>, Place),
    While(CoreExpr, Boxed<CoreStmt>, Place),
    /// `for` over all values of a `wrap`, with its variable.
    Each(u32, Boxed<CoreStmt>, Place),
    /// The `for` of three parts: what is done first, the condition, what is done after each body, and the body.
    For(Boxed<CoreStmt>, Option<CoreExpr>, Boxed<CoreStmt>, Boxed<CoreStmt>, Place),
    Break,
    Continue,
    Return(Option<CoreExpr>),
    Advance,
    /// `<-` with the number of the output and the converted value.
    Write(u32, CoreExpr),
}

pub type CoreStmts = Items<CoreStmt>;
