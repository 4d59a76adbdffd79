use crate::expr::Expr;
use crate::path::Word;
use crate::simple::{Local, Simple};
use crate::type_expr::TypeExpr;
use cm_base::{Boxed, Bytes, Items, Place};

/// `static_assert(condition, "text")`
#[derive(Debug, Drop)]
pub struct Assert {
    pub place: Place,
    pub condition: Expr,
    pub text: Option<Bytes>,
}

/// How a `for` of three parts begins.
#[derive(Debug, Drop)]
pub enum Start {
    Local(Local),
    Simple(Simple),
}

/// A statement: docs/LANGUAGE.md, "Statements". A place is that of the first token; where none is written, the first
/// part has it.
#[derive(Debug, Drop)]
pub enum Stmt {
    /// `{ .. }`
    Block(Place, Items<Stmt>),
    /// `;`
    Empty(Place),
    /// `int a = 1;`
    Local(Local),
    /// `a = 1;`
    Simple(Simple),
    /// `static_assert(a);`
    Assert(Assert),
    /// `if (a) ..` with no `else`
    If(Place, Expr, Boxed<Stmt>),
    /// `if (a) .. else ..`
    IfElse(Place, Expr, Boxed<Stmt>, Boxed<Stmt>),
    /// `loop ..`, `loop (a) ..`
    Loop(Place, Option<Expr>, Boxed<Stmt>),
    /// `while (a) ..`
    While(Place, Expr, Boxed<Stmt>),
    /// `for (wrap<4> i) ..`
    ForType(Place, TypeExpr, Word, Boxed<Stmt>),
    /// `for (int i = 0; i < 4; i++) ..`
    For(Place, Option<Start>, Option<Expr>, Option<Simple>, Boxed<Stmt>),
    /// `break;`
    Break(Place),
    /// `continue;`
    Continue(Place),
    /// `return;`, `return a;`
    Return(Place, Option<Expr>),
    /// `advance();`
    Advance(Place),
    /// `out <- a;`
    Write(Word, Expr),
}

/// The body of a function or a handler.
#[derive(Debug, Drop)]
pub struct Block {
    pub place: Place,
    pub stmts: Items<Stmt>,
}
