use cm_base::Items;
use cm_tree::{Expr, Path, Target, TypeExpr};

/// What a statement or the head of a `for` begins with, where its first token is a name.
#[derive(Debug, Drop)]
pub enum Begun {
    /// The type of names that are declared.
    Type(TypeExpr),
    /// What is assigned or written.
    Target(Target),
    /// A call of a function.
    Call(Path, Items<Expr>),
}
