ghost use Rattle.std.specs.Prelude.{◌≡◌, [], ◌∷◌, ◌++◌, OnOk};
ghost use Rattle.cm_tree.specs.Heights.{sizes_height};
ghost use Rattle.cm_parse_expr.specs.Tallness.{kept};

use crate::tall::Tall;
use cm_base::Items;
use cm_tree::Expr;
use std::alloc::{AllocError, Global};
use std::marker::Model;

/// Expressions that know the greatest of their heights.
#[derive(Drop)]
pub struct Exprs {
    pub list: Items<Expr>,
    pub height: u32,
}

impl Model for Exprs {
    ghost use Rattle.std.specs.Prelude.{List};
    ghost use Rattle.cm_tree.specs.declared.expr.Expr.{Expr as Tree};
    ghost use Rattle.cm_parse_expr.specs.Tallness.{list_of, AreTall};
    ghost use Rattle.cm_tree.specs.contracts.expr.Expr as stored;
    ghost use Rattle.std.specs.Coded.{codes, coded_list};

    ghost Value = { List Tree };

    ghost coded = { coded_list (Prim.hlevel (codes, stored.the_row.coded)) };

    ghost view = { list_of };

    ghost invariant = { AreTall };
}

#[tactic(auto, using(cm_tree::specs::Heights::list_heights))]
impl Exprs {
    pub fn new(alloc: Global) -> Exprs
        ensures { result ≡ [] }
    {
        Exprs {
            list: Items::new(alloc),
            height: 0,
        }
    }

    pub fn push(&mut self, expr: Tall) -> Result<(), AllocError>
        ensures { OnOk result (self.new ≡ self.old ++ expr ∷ []) }
    {
        let Tall { tree, height } = expr;
        self.list.push(tree)?;
        self.height = self.height.max(height);
        Ok(())
    }

    /// The height of array sizes, which count one each.
    pub fn height_of_sizes(&self) -> u32
        ensures { result ≡ kept (sizes_height self.now) }
    {
        if self.list.is_empty() {
            0
        } else {
            self.height.saturating_add(1)
        }
    }

    pub fn into_list(self) -> Items<Expr>
        ensures { result ≡ self }
    {
        self.list
    }
}
