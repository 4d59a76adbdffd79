ghost use Rattle.std.specs.Prelude.{◌≡◌, ◌+◌, IfOk, nat_le};
ghost use Rattle.cm_tree.specs.Heights.{height};
ghost use Rattle.cm_tree.specs.Levels.{place, base_place};
ghost use Rattle.cm_tree.specs.declared.expr.Expr.TheVariants as e;

use crate::base::SizedBase;
use crate::exprs::Exprs;
use cm_base::{Boxed, Place};
use cm_tree::{Base, Binary, Expr, Path, Unary, Word};
use std::alloc::{AllocError, Global};
use std::marker::Model;

/// An expression that knows its height.
#[derive(Drop)]
pub struct Tall {
    pub tree: Expr,
    pub height: u32,
}

impl Model for Tall {
    ghost use Rattle.cm_tree.specs.declared.expr.Expr.{Expr as Tree};
    ghost use Rattle.cm_parse_expr.specs.Tallness.{tree_of, IsTall};
    ghost use Rattle.cm_tree.specs.contracts.expr.Expr as stored;
    ghost use Rattle.std.specs.Coded.{codes};

    ghost Value = { Tree };

    ghost coded = { Prim.hlevel (codes, stored.the_row.coded) };

    ghost view = { tree_of };

    ghost invariant = { IsTall };
}

fn base_place(base: &Base) -> Place
    ensures { result ≡ base_place base.now }
{
    match base {
        Base::Bool(place)
        | Base::Int(place)
        | Base::Int32(place)
        | Base::Int64(place)
        | Base::Wrap(place, _)
        | Base::Clamp(place, _) => *place,
    }
}

#[tactic(auto, using(cm_tree::specs::Heights::heights))]
impl Tall {
    /// Whether it is higher than `room`.
    pub fn is_above(&self, room: u16) -> bool
        ensures { result ≡ nat_le (room + 1) (height self.now) }
    {
        self.height > u32::from(room)
    }

    /// The place of its first token.
    pub fn place(&self) -> Place
        ensures { result ≡ place self.now }
    {
        match &self.tree {
            Expr::Name(path) | Expr::Call(path, _) => path.place,
            Expr::Construct(base, _, _) => base_place(base),
            Expr::Number(place, _, _)
            | Expr::Truth(place, _)
            | Expr::Paren(place, _)
            | Expr::Field(place, _, _)
            | Expr::Index(place, _, _)
            | Expr::Unary(place, _, _)
            | Expr::Binary(place, _, _, _)
            | Expr::Choice(place, _, _, _) => *place,
        }
    }

    pub fn number(place: Place, value: i64, wide: bool) -> Tall
        ensures { result ≡ e.Number place value wide }
    {
        Tall {
            tree: Expr::Number(place, value, wide),
            height: 1,
        }
    }

    pub fn truth(place: Place, value: bool) -> Tall
        ensures { result ≡ e.Truth place value }
    {
        Tall {
            tree: Expr::Truth(place, value),
            height: 1,
        }
    }

    pub fn name(path: Path) -> Tall
        ensures { result ≡ e.Name path }
    {
        Tall {
            tree: Expr::Name(path),
            height: 1,
        }
    }

    pub fn call(path: Path, args: Exprs) -> Tall
        ensures { result ≡ e.Call path args }
    {
        let Exprs { list, height } = args;
        Tall {
            tree: Expr::Call(path, list),
            height: height.max(1).saturating_add(1),
        }
    }

    pub fn construct(ty: SizedBase, args: Exprs) -> Tall
        ensures { result ≡ e.Construct ty.0 ty.1 args }
    {
        let height = ty.height.max(args.height).saturating_add(1);
        let SizedBase { base, sizes, .. } = ty;
        Tall {
            tree: Expr::Construct(base, sizes, args.list),
            height,
        }
    }

    pub fn paren(alloc: Global, place: Place, inner: Tall) -> Result<Tall, AllocError>
        ensures { IfOk result (λ t. t ≡ e.Paren place inner) }
    {
        let Tall { tree, height } = inner;
        Ok(Tall {
            tree: Expr::Paren(place, Boxed::new(alloc, tree)?),
            height: height.saturating_add(1),
        })
    }

    pub fn field(alloc: Global, left: Tall, name: Word) -> Result<Tall, AllocError>
        ensures { IfOk result (λ t. t ≡ e.Field (place left) left name) }
    {
        let place = left.place();
        let Tall { tree, height } = left;
        Ok(Tall {
            tree: Expr::Field(place, Boxed::new(alloc, tree)?, name),
            height: height.saturating_add(1),
        })
    }

    pub fn index(alloc: Global, left: Tall, index: Tall) -> Result<Tall, AllocError>
        ensures { IfOk result (λ t. t ≡ e.Index (place left) left index) }
    {
        let place = left.place();
        let height = left.height.max(index.height).saturating_add(1);
        let left = Boxed::new(alloc, left.tree)?;
        let index = Boxed::new(alloc, index.tree)?;
        Ok(Tall {
            tree: Expr::Index(place, left, index),
            height,
        })
    }

    pub fn unary(
        alloc: Global,
        place: Place,
        operator: Unary,
        inner: Tall,
    ) -> Result<Tall, AllocError>
        ensures { IfOk result (λ t. t ≡ e.Unary place operator inner) }
    {
        let Tall { tree, height } = inner;
        Ok(Tall {
            tree: Expr::Unary(place, operator, Boxed::new(alloc, tree)?),
            height: height.saturating_add(1),
        })
    }

    pub fn binary(
        alloc: Global,
        operator: Binary,
        left: Tall,
        right: Tall,
    ) -> Result<Tall, AllocError>
        ensures { IfOk result (λ t. t ≡ e.Binary (place left) operator left right) }
    {
        let place = left.place();
        let height = left.height.max(right.height).saturating_add(1);
        let left = Boxed::new(alloc, left.tree)?;
        let right = Boxed::new(alloc, right.tree)?;
        Ok(Tall {
            tree: Expr::Binary(place, operator, left, right),
            height,
        })
    }

    pub fn choice(alloc: Global, test: Tall, left: Tall, right: Tall) -> Result<Tall, AllocError>
        ensures { IfOk result (λ t. t ≡ e.Choice (place test) test left right) }
    {
        let place = test.place();
        let height = test
            .height
            .max(left.height.max(right.height))
            .saturating_add(1);
        let test = Boxed::new(alloc, test.tree)?;
        let left = Boxed::new(alloc, left.tree)?;
        let right = Boxed::new(alloc, right.tree)?;
        Ok(Tall {
            tree: Expr::Choice(place, test, left, right),
            height,
        })
    }

    pub fn into_tree(self) -> Expr
        ensures { result ≡ self }
    {
        self.tree
    }
}
