use crate::expr::Expr;
use crate::path::{Path, Word};
use crate::shared::{Function, Shared};
use crate::simple::{Init, Var};
use crate::stmt::Block;
use crate::type_expr::{Arg, TypeExpr, Typed};
use cm_base::{Bytes, Flow, Items, Kind, Place};

/// What an annotation's key is given.
#[derive(Debug, Drop)]
pub enum KeyValue {
    Value(Expr),
    /// A string with its place, as it stands in the file.
    Text(Place, Bytes),
}

/// A key of an annotation: `min: 1`, `main`.
#[derive(Debug, Drop)]
pub struct Key {
    pub name: Word,
    pub value: Option<KeyValue>,
}

/// An endpoint's name and its annotation. No keys stand for no annotation.
#[derive(Debug, Drop)]
pub struct EndName {
    pub name: Word,
    pub keys: Items<Key>,
}

/// Endpoints of one kind and type, one at least.
#[derive(Debug, Drop)]
pub struct End {
    pub place: Place,
    pub kind: Kind,
    pub ty: TypeExpr,
    pub names: Items<EndName>,
}

/// A node: `a = P(1, int)[2] * 4`. No arguments stand for no parentheses.
#[derive(Debug, Drop)]
pub struct Node {
    pub name: Word,
    pub path: Path,
    pub args: Items<Arg>,
    pub count: Option<Expr>,
    pub factor: Option<Expr>,
}

/// An end of a connection: `a`, `a[1]`, `a.out`, `a[1].out`.
#[derive(Debug, Drop)]
pub struct Point {
    pub name: Word,
    pub index: Option<Expr>,
    pub end: Option<Word>,
}

/// A connection: `[latch] a.out -> [3] -> b.in;`. `place` is that of its first token.
#[derive(Debug, Drop)]
pub struct Link {
    pub place: Place,
    pub latch: bool,
    pub from: Point,
    pub delay: Option<Expr>,
    pub to: Point,
}

/// A part of a processor or a graph. Functions, handlers, state and a latency stand in processors only, nodes and
/// connections in graphs only.
#[derive(Debug, Drop)]
pub enum Member {
    /// `input stream int a;`, `input { .. }`
    Ends(Place, Flow, Items<End>),
    Shared(Shared),
    Function(Function),
    /// `event a(int x) { .. }`
    Handler(Place, Word, Typed, Block),
    /// `var a = 1;`
    Var(Place, Items<Init>),
    /// `int a, b = 2;`
    State(TypeExpr, Items<Var>),
    /// `processor.latency = 1;`
    Latency(Place, Expr),
    /// `node a = P, b = Q;`
    Nodes(Place, Items<Node>),
    /// `connection a -> b;`, `connection { .. }`
    Connection(Place, Items<Link>),
}
