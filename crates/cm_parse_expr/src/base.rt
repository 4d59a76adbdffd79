ghost use Rattle.std.specs.Prelude.{◌≡◌, IfOk};
ghost use Rattle.cm_parse_expr.specs.Starts.{plain_base, counted_base};

use crate::exprs::Exprs;
use crate::start::{Counted, Plain};
use crate::tall::Tall;
use cm_base::{Boxed, Items, Place};
use cm_tree::{Base, Expr};
use std::alloc::{AllocError, Global};
use std::marker::Model;

/// A base type that knows its height.
#[derive(Drop)]
pub struct TallBase {
    pub base: Base,
    pub height: u32,
}

impl Model for TallBase {
    ghost use Rattle.cm_tree.specs.declared.expr.Base.{Base as Tree};
    ghost use Rattle.cm_parse_expr.specs.Tallness.{base_of, IsTallBase};
    ghost use Rattle.cm_tree.specs.contracts.expr.Base as stored;
    ghost use Rattle.std.specs.Coded.{codes};

    ghost Value = { Tree };

    ghost coded = { Prim.hlevel (codes, stored.the_row.coded) };

    ghost view = { base_of };

    ghost invariant = { IsTallBase };
}

#[tactic(auto, using(cm_tree::specs::Heights::base_heights))]
impl TallBase {
    /// A base type that is one word.
    pub fn plain(place: Place, word: Plain) -> TallBase
        ensures { result ≡ plain_base place word }
    {
        let base = match word {
            Plain::Bool => Base::Bool(place),
            Plain::Int => Base::Int(place),
            Plain::Int32 => Base::Int32(place),
            Plain::Int64 => Base::Int64(place),
        };
        TallBase { base, height: 1 }
    }

    /// A base type with the count of its values.
    pub fn counted(
        alloc: Global,
        place: Place,
        word: Counted,
        count: Tall,
    ) -> Result<TallBase, AllocError>
        ensures { IfOk result (λ t. t ≡ counted_base place word count) }
    {
        let height = count.height.saturating_add(1);
        let count = Boxed::new(alloc, count.tree)?;
        let base = match word {
            Counted::Wrap => Base::Wrap(place, count),
            Counted::Clamp => Base::Clamp(place, count),
        };
        Ok(TallBase { base, height })
    }
}

/// A base type with its sizes, which knows its height.
#[derive(Drop)]
pub struct SizedBase {
    pub base: Base,
    pub sizes: Items<Expr>,
    pub height: u32,
}

impl Model for SizedBase {
    ghost use Rattle.std.specs.Prelude.{List};
    ghost use Rattle.cm_tree.specs.declared.expr.Base.{Base as Tree};
    ghost use Rattle.cm_tree.specs.declared.expr.Expr.{Expr as Part};
    ghost use Rattle.cm_parse_expr.specs.Tallness.{sized_of, IsTallSized};
    ghost use Rattle.cm_tree.specs.contracts.expr.Base as stored;
    ghost use Rattle.cm_tree.specs.contracts.expr.Expr as parts;
    ghost use Rattle.std.specs.Coded.{codes, coded_list, coded×};

    ghost Value = { Tree × List Part };

    ghost coded = { coded× (Prim.hlevel (codes, stored.the_row.coded)) (coded_list (Prim.hlevel (codes, parts.the_row.coded))) };

    ghost view = { sized_of };

    ghost invariant = { IsTallSized };
}

#[tactic(auto, using(cm_tree::specs::Heights::list_heights))]
impl SizedBase {
    ghost use Rattle.std.specs.Prelude.{nat_le};
    ghost use Rattle.std.specs.Prelude.{◌+◌};
    ghost use Rattle.cm_tree.specs.Heights.{sized};

    pub fn new(base: TallBase, sizes: Exprs) -> SizedBase
        ensures { result ≡ (base, sizes) }
    {
        let height = base.height.max(sizes.height_of_sizes());
        SizedBase {
            base: base.base,
            sizes: sizes.list,
            height,
        }
    }

    pub fn into_parts(self) -> (Base, Items<Expr>)
        ensures { result ≡ self }
    {
        let SizedBase { base, sizes, .. } = self;
        (base, sizes)
    }

    /// Whether it is higher than `room`.
    pub fn is_above(&self, room: u16) -> bool
        ensures { result ≡ nat_le (room + 1) (sized self.now.0 self.now.1) }
    {
        self.height > u32::from(room)
    }
}
