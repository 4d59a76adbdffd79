use cm_base::Place;
use cm_tree::{Expr, Fields, Function, TypeExpr, UnitDecl};

/// What a name stands for: the part of a file that declares it. A namespace has its number.
#[derive(Clone, Copy, Debug)]
pub enum Named<'a> {
    /// `namespace a { .. }`
    Namespace(usize),
    /// `processor P { .. }`
    Processor(&'a UnitDecl),
    /// `graph G { .. }`
    Graph(&'a UnitDecl),
    /// `struct S { .. }`, with the place of its first token
    Struct(Place, &'a [Fields]),
    /// `using T = int;`
    Using(&'a TypeExpr),
    /// `let a = 1;` of a namespace, a processor or a graph
    Constant(&'a Expr),
    /// `void f() { .. }`
    Function(&'a Function),
}

/// A declaration of a namespace: the number of the namespace, and the name with its place.
#[derive(Clone, Copy, Debug)]
pub struct Member<'a> {
    pub space: usize,
    pub place: Place,
    pub text: &'a str,
    pub named: Named<'a>,
}
