use crate::path::Word;
use crate::simple::Init;
use crate::stmt::{Assert, Block};
use crate::type_expr::{TypeExpr, Typed};
use cm_base::{Items, Place};

/// Fields of one type, one at least: `int a, b;`
#[derive(Debug, Drop)]
pub struct Fields {
    pub ty: TypeExpr,
    pub names: Items<Word>,
}

/// A declaration that may stand in a namespace, a processor or a graph.
#[derive(Debug, Drop)]
pub enum Shared {
    /// `struct S { int a, b; }`
    Struct(Place, Word, Items<Fields>),
    /// `using T = int;`
    Using(Place, Word, TypeExpr),
    /// `let a = 1, b = 2;`
    Let(Place, Items<Init>),
    /// `static_assert(a);`
    Assert(Assert),
}

/// A function. `place` is that of its first token, and `result` is absent for `void`.
#[derive(Debug, Drop)]
pub struct Function {
    pub place: Place,
    pub result: Option<TypeExpr>,
    pub name: Word,
    pub params: Items<Typed>,
    pub body: Block,
}
