use crate::member::{Key, Member};
use crate::path::{Path, Word};
use crate::shared::{Function, Shared};
use crate::type_expr::TypeExpr;
use cm_base::{Items, Place};

/// A parameter of a processor or a graph.
#[derive(Debug, Drop)]
pub enum Param {
    /// `using T`
    Type(Place, Word),
    /// `int n`
    Value(TypeExpr, Word),
}

/// A processor or a graph. No parameters stand for no parentheses, no keys for no annotation.
#[derive(Debug, Drop)]
pub struct UnitDecl {
    pub place: Place,
    pub name: Word,
    pub params: Items<Param>,
    pub keys: Items<Key>,
    pub members: Items<Member>,
}

/// A declaration of a file or a namespace.
#[derive(Debug, Drop)]
pub enum Decl {
    /// `namespace a::b { .. }`
    Namespace(Place, Path, Items<Decl>),
    Processor(UnitDecl),
    Graph(UnitDecl),
    Shared(Shared),
    Function(Function),
}
