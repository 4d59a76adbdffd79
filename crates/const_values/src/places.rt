ghost use Rattle.std.specs.Prelude.{◌≡◌};
ghost use Rattle.cm_tree.specs.Levels as levels;

use cm_base::Place;
use cm_tree::{Base, Expr};

/// The place of a base type's first token.
pub fn base_place(base: &Base) -> Place
    ensures { result ≡ levels.base_place base.now }
{
    match base {
        Base::Bool(place)
        | Base::Int(place)
        | Base::Int32(place)
        | Base::Int64(place)
        | Base::Wrap(place, _)
        | Base::Clamp(place, _) => *place,
    }
}

/// The place of an expression's first token.
pub fn place(expr: &Expr) -> Place
    ensures { result ≡ levels.place expr.now }
{
    match expr {
        Expr::Name(path) | Expr::Call(path, _) => path.place,
        Expr::Construct(base, _, _) => base_place(base),
        Expr::Number(place, _, _)
        | Expr::Truth(place, _)
        | Expr::Paren(place, _)
        | Expr::Field(place, _, _)
        | Expr::Index(place, _, _)
        | Expr::Unary(place, _, _)
        | Expr::Binary(place, _, _, _)
        | Expr::Choice(place, _, _, _) => *place,
    }
}
