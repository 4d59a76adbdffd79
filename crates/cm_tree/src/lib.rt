//! What the files of a patch are made of: tokens and syntax trees, plain types with a variant for each alternative.
//! `specs/` says which tokens a text is cut into, which tokens spell which tree, and where a file has a fault of the
//! grammar. What a tree means stands in `cm_meaning`.
#![tactic(auto)]

mod decl;
mod expr;
mod file;
mod member;
mod operator;
mod path;
mod reserved;
mod shared;
mod sign;
mod simple;
mod stmt;
mod token;
mod tokens;
mod type_expr;

pub use decl::{Decl, Param, UnitDecl};
pub use expr::{Base, Expr};
pub use file::File;
pub use member::{End, EndName, Key, KeyValue, Link, Member, Node, Point};
pub use operator::{Assign, Binary, Change, Unary};
pub use path::{Path, Word};
pub use reserved::Reserved;
pub use shared::{Fields, Function, Shared};
pub use sign::Sign;
pub use simple::{Init, Local, Simple, Step, Target, Var};
pub use stmt::{Assert, Block, Start, Stmt};
pub use token::{Token, TokenKind};
pub use tokens::Tokens;
pub use type_expr::{Arg, TypeExpr, Typed};
