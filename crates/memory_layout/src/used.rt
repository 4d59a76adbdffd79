ghost use Rattle.std.specs.Prelude.{◌≡◌};
ghost use Rattle.cm_core.specs.Code.{expr_of};
ghost use Rattle.cm_core.specs.Sizes as sizes;
ghost use Rattle.memory_layout.specs.Uses.{use_of};

use crate::forms::moves;
use cm_core::CoreExpr;

/// What an expression is used as: a value, or a place that is only selected from or assigned to. A place stands within a
/// selection of which an index isn't a constant (it moves), or of which all are.
#[derive(Clone, Copy)]
pub enum Used {
    Value,
    Place(bool),
}

impl Used {
    /// What the part is used as that this selection is taken of.
    pub fn of_part(self, selection: &CoreExpr) -> Used
        ensures { use_of result ≡ sizes.part_use (use_of self) (expr_of selection.now) }
    {
        match self {
            Used::Value => Used::Place(moves(selection)),
            Used::Place(moving) => Used::Place(moving),
        }
    }
}
