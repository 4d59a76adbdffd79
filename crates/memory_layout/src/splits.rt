ghost use Rattle.std.specs.Prelude.{◌≡◌, ◌+◌, ◌||◌};
ghost use Rattle.cm_core.specs.Code.{stmt_of, body_of};
ghost use Rattle.cm_core.specs.Measures as measures;
ghost use Rattle.cm_core.specs.Views.{stmts_of};
ghost use Rattle.memory_layout.specs.Held.{held};

use cm_core::CoreStmt;

/// Code that is searched for split points: whether it is or contains an `advance`, and how many of its statements are or do,
/// itself among them.
#[derive(Clone, Copy)]
pub struct Splits {
    pub advances: bool,
    pub count: u64,
}

// A statement with these parts.
fn around(parts: Splits) -> Splits
    ensures advances { result.advances ≡ parts.advances }
    ensures count { result.count ≡ held (measures.counted parts.advances + parts.count) }
{
    Splits {
        advances: parts.advances,
        count: parts.count.saturating_add(u64::from(parts.advances)),
    }
}

// Two parts beside one another.
fn beside(one: Splits, other: Splits) -> Splits
    ensures advances { result.advances ≡ (one.advances || other.advances) }
    ensures count { result.count ≡ held (one.count + other.count) }
{
    Splits {
        advances: one.advances || other.advances,
        count: one.count.saturating_add(other.count),
    }
}

const NONE: Splits = Splits {
    advances: false,
    count: 0,
};

/// The split points of a statement. Recursion goes down the tree.
#[cycle(splits)]
#[tactic(auto, using(cm_core::specs::Views::stmt_views))]
pub fn splits_in(stmt: &CoreStmt) -> Splits
    ensures advances { result.advances ≡ measures.advances (stmt_of stmt.now) }
    ensures count { result.count ≡ held (measures.splits_in (stmt_of stmt.now)) }
{
    match stmt {
        CoreStmt::Block(all) => around(splits_among(all.as_slice())),
        CoreStmt::If(_, one, other) => around(beside(splits_in(one.get()), splits_in(other.get()))),
        CoreStmt::Loop(body, _) => around(splits_in(body.get())),
        CoreStmt::Times(_, _, body, _) => around(splits_in(body.get())),
        CoreStmt::While(_, body, _) => around(splits_in(body.get())),
        CoreStmt::Each(_, body, _) => around(splits_in(body.get())),
        CoreStmt::For(_, _, _, body, _) => around(splits_in(body.get())),
        CoreStmt::Advance => Splits {
            advances: true,
            count: 1,
        },
        CoreStmt::Return(_)
        | CoreStmt::Nothing
        | CoreStmt::Empty
        | CoreStmt::Locals(_)
        | CoreStmt::Assign(_, _)
        | CoreStmt::Update(_, _, _, _)
        | CoreStmt::Count(_, _)
        | CoreStmt::Call(_, _)
        | CoreStmt::Break
        | CoreStmt::Continue
        | CoreStmt::Write(_, _) => NONE,
    }
}

#[cycle(splits)]
#[tactic(auto, using(crate::proofs::Own::or_joined))]
fn splits_among(all: &[CoreStmt]) -> Splits
    ensures advances { result.advances ≡ measures.any_advances (stmts_of all.now) }
    ensures count { result.count ≡ held (measures.splits_among (stmts_of all.now)) }
{
    let mut found = NONE;
    let mut rest = all;
    while let Some((first, others)) = rest.split_first() {
        found = beside(found, splits_in(first));
        rest = others;
    }
    found
}

// The split points of a body, which isn't counted itself.
#[tactic(auto, using(cm_core::specs::Views::stmt_views))]
fn body_splits(body: &CoreStmt) -> u64
    ensures { result ≡ held (measures.main_splits (stmt_of body.now)) }
{
    match body {
        CoreStmt::Block(all) => splits_among(all.as_slice()).count,
        CoreStmt::Nothing
        | CoreStmt::Empty
        | CoreStmt::Locals(_)
        | CoreStmt::Assign(_, _)
        | CoreStmt::Update(_, _, _, _)
        | CoreStmt::Count(_, _)
        | CoreStmt::Call(_, _)
        | CoreStmt::If(_, _, _)
        | CoreStmt::Loop(_, _)
        | CoreStmt::Times(_, _, _, _)
        | CoreStmt::While(_, _, _)
        | CoreStmt::Each(_, _, _)
        | CoreStmt::For(_, _, _, _, _)
        | CoreStmt::Break
        | CoreStmt::Continue
        | CoreStmt::Return(_)
        | CoreStmt::Advance
        | CoreStmt::Write(_, _) => splits_in(body).count,
    }
}

/// The split points of the body of a `main`, which isn't counted itself.
pub fn main_splits(body: &Option<CoreStmt>) -> u64
    ensures { result ≡ held (measures.main_splits (body_of body.now)) }
{
    match body {
        Some(body) => body_splits(body),
        None => 0,
    }
}
