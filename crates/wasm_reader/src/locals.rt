ghost use Rattle.std.specs.Prelude.{◌≡◌, ◌+◌, ◌≤◌, IfOk};
ghost use Rattle.wasm_tree.specs.Spelled.{most_locals};
ghost use Rattle.wasm_reader.specs.Reading.{Gives, locals_at, runs_from, local_runs_at};

use crate::cursor::Cursor;
use crate::decode::Decode;
use crate::fault::{ReadFail, at};
use cm_base::Items;
use cm_base::limits::LOCALS;
use std::alloc::Global;
use wasm_tree::{LocalRun, ModuleRule, ValType};

/// A run of locals of one type, behind so many locals of the same function.
#[tactic(auto, unfolding(crate::specs::Reading::locals_at))]
fn run(alloc: Global, before: u64, cursor: &mut Cursor<'_>) -> Result<LocalRun, ReadFail>
    requires { before ≤ most_locals }
    ensures value { Gives (λ x. (x, cursor.new)) result (locals_at before cursor.old) }
    ensures few { IfOk result (λ run. before + run.count ≤ most_locals) }
{
    let start = cursor.left();
    let count = cursor.index()?;
    if before + count as u64 > LOCALS {
        return Err(at(ModuleRule::Limit, start));
    }
    let ty = ValType::read(alloc, cursor)?;
    Ok(LocalRun { count, ty })
}

/// So many runs, one after another. They are counted as they come, so that a few bytes can't ask for many locals.
fn runs(alloc: Global, count: u32, cursor: &mut Cursor<'_>) -> Result<Items<LocalRun>, ReadFail>
    ensures { Gives (λ x. (x, cursor.new)) result (runs_from count 0 cursor.old) }
{
    let mut runs = Items::new(alloc);
    let mut before = 0;
    for _ in 0..count {
        let next = run(alloc, before, cursor)?;
        before += next.count as u64;
        runs.push(next)?;
    }
    Ok(runs)
}

/// The locals of a function: the number of their runs, and the runs.
#[tactic(auto, unfolding(crate::specs::Reading::local_runs_at))]
pub fn locals(alloc: Global, cursor: &mut Cursor<'_>) -> Result<Items<LocalRun>, ReadFail>
    ensures { Gives (λ x. (x, cursor.new)) result (local_runs_at cursor.old) }
{
    let count = cursor.index()?;
    runs(alloc, count, cursor)
}
