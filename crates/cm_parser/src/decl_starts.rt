ghost use Rattle.std.specs.Prelude.{◌≡◌};
ghost use Rattle.cm_parser.specs.DeclStarts as spec;

use cm_base::Flow;
use cm_tree::{Reserved, TokenKind};

/// The word of a declaration that may stand everywhere.
#[derive(Clone, Copy, Debug)]
pub enum SharedStart {
    Struct,
    Using,
    Let,
    Assert,
}

/// Whether members stand in a processor or in a graph.
#[derive(Clone, Copy, Debug)]
pub enum UnitKind {
    Processor,
    Graph,
}

/// What a member of a processor begins with.
#[derive(Clone, Copy, Debug)]
pub enum ProcessorStart {
    Ends(Flow),
    Shared(SharedStart),
    Handler,
    Var,
    Latency,
    Void,
    /// A type.
    Type,
}

/// What a member of a graph begins with.
#[derive(Clone, Copy, Debug)]
pub enum GraphStart {
    Ends(Flow),
    Shared(SharedStart),
    Nodes,
    Connection,
}

/// What a declaration of a file or a namespace begins with.
#[derive(Clone, Copy, Debug)]
pub enum DeclStart {
    Namespace,
    Unit(UnitKind),
    Shared(SharedStart),
    Void,
    /// A type.
    Type,
}

/// What a member of a processor that begins with this token begins with, if one does.
pub fn processor_start(kind: &TokenKind) -> Option<ProcessorStart>
    ensures { result ≡ spec.processor_start kind.now }
{
    match kind {
        TokenKind::Reserved(Reserved::Input) => Some(ProcessorStart::Ends(Flow::Input)),
        TokenKind::Reserved(Reserved::Output) => Some(ProcessorStart::Ends(Flow::Output)),
        TokenKind::Reserved(Reserved::Struct) => {
            Some(ProcessorStart::Shared(SharedStart::Struct))
        }
        TokenKind::Reserved(Reserved::Using) => Some(ProcessorStart::Shared(SharedStart::Using)),
        TokenKind::Reserved(Reserved::Let) => Some(ProcessorStart::Shared(SharedStart::Let)),
        TokenKind::Reserved(Reserved::StaticAssert) => {
            Some(ProcessorStart::Shared(SharedStart::Assert))
        }
        TokenKind::Reserved(Reserved::Event) => Some(ProcessorStart::Handler),
        TokenKind::Reserved(Reserved::Var) => Some(ProcessorStart::Var),
        TokenKind::Reserved(Reserved::Processor) => Some(ProcessorStart::Latency),
        TokenKind::Reserved(Reserved::Void) => Some(ProcessorStart::Void),
        TokenKind::Reserved(
            Reserved::Bool
            | Reserved::Int
            | Reserved::Int32
            | Reserved::Int64
            | Reserved::Wrap
            | Reserved::Clamp,
        )
        | TokenKind::Word(_) => Some(ProcessorStart::Type),
        _ => None,
    }
}

/// What a member of a graph that begins with this token begins with, if one does.
pub fn graph_start(kind: &TokenKind) -> Option<GraphStart>
    ensures { result ≡ spec.graph_start kind.now }
{
    match kind {
        TokenKind::Reserved(Reserved::Input) => Some(GraphStart::Ends(Flow::Input)),
        TokenKind::Reserved(Reserved::Output) => Some(GraphStart::Ends(Flow::Output)),
        TokenKind::Reserved(Reserved::Struct) => Some(GraphStart::Shared(SharedStart::Struct)),
        TokenKind::Reserved(Reserved::Using) => Some(GraphStart::Shared(SharedStart::Using)),
        TokenKind::Reserved(Reserved::Let) => Some(GraphStart::Shared(SharedStart::Let)),
        TokenKind::Reserved(Reserved::StaticAssert) => {
            Some(GraphStart::Shared(SharedStart::Assert))
        }
        TokenKind::Reserved(Reserved::Node) => Some(GraphStart::Nodes),
        TokenKind::Reserved(Reserved::Connection) => Some(GraphStart::Connection),
        _ => None,
    }
}

/// What a declaration that begins with this token begins with, if one does.
pub fn decl_start(kind: &TokenKind) -> Option<DeclStart>
    ensures { result ≡ spec.decl_start kind.now }
{
    match kind {
        TokenKind::Reserved(Reserved::Namespace) => Some(DeclStart::Namespace),
        TokenKind::Reserved(Reserved::Processor) => Some(DeclStart::Unit(UnitKind::Processor)),
        TokenKind::Reserved(Reserved::Graph) => Some(DeclStart::Unit(UnitKind::Graph)),
        TokenKind::Reserved(Reserved::Struct) => Some(DeclStart::Shared(SharedStart::Struct)),
        TokenKind::Reserved(Reserved::Using) => Some(DeclStart::Shared(SharedStart::Using)),
        TokenKind::Reserved(Reserved::Let) => Some(DeclStart::Shared(SharedStart::Let)),
        TokenKind::Reserved(Reserved::StaticAssert) => {
            Some(DeclStart::Shared(SharedStart::Assert))
        }
        TokenKind::Reserved(Reserved::Void) => Some(DeclStart::Void),
        TokenKind::Reserved(
            Reserved::Bool
            | Reserved::Int
            | Reserved::Int32
            | Reserved::Int64
            | Reserved::Wrap
            | Reserved::Clamp,
        )
        | TokenKind::Word(_) => Some(DeclStart::Type),
        _ => None,
    }
}
