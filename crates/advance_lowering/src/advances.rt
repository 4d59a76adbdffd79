ghost use Rattle.std.specs.Prelude.{◌≡◌};
ghost use Rattle.cm_core.specs.Code.{stmt_of};
ghost use Rattle.cm_core.specs.Measures as measures;
ghost use Rattle.cm_core.specs.Views.{stmts_of};

use cm_core::CoreStmt;

/// Whether a statement is or contains an `advance`. Recursion goes down the tree.
#[cycle(advances)]
#[tactic(auto, using(cm_core::specs::Views::stmt_views))]
pub fn has_advance(stmt: &CoreStmt) -> bool
    ensures { result ≡ measures.advances (stmt_of stmt.now) }
{
    match stmt {
        CoreStmt::Block(all) => any_has_advance(all.as_slice()),
        CoreStmt::If(_, one, other) => has_advance(one.get()) || has_advance(other.get()),
        CoreStmt::Loop(body, _) => has_advance(body.get()),
        CoreStmt::Times(_, _, body, _) => has_advance(body.get()),
        CoreStmt::While(_, body, _) => has_advance(body.get()),
        CoreStmt::Each(_, body, _) => has_advance(body.get()),
        CoreStmt::For(_, _, _, body, _) => has_advance(body.get()),
        CoreStmt::Advance => true,
        CoreStmt::Return(_)
        | CoreStmt::Nothing
        | CoreStmt::Empty
        | CoreStmt::Locals(_)
        | CoreStmt::Assign(_, _)
        | CoreStmt::Update(_, _, _, _)
        | CoreStmt::Count(_, _)
        | CoreStmt::Call(_, _)
        | CoreStmt::Break
        | CoreStmt::Continue
        | CoreStmt::Write(_, _) => false,
    }
}

#[cycle(advances)]
fn any_has_advance(all: &[CoreStmt]) -> bool
    ensures { result ≡ measures.any_advances (stmts_of all.now) }
{
    for stmt in all {
        if has_advance(stmt) {
            return true;
        }
    }
    false
}
