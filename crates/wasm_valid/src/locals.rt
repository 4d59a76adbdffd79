ghost use Rattle.std.specs.Prelude.{◌≡◌, ◌++◌, ◌+◌, ◌-◌, ◌<◌, ◌≤◌, length, slice_get, slice_index, OnOk};
ghost use Rattle.wasm_tree.specs.Numbers.{declared_locals};
ghost use Rattle.wasm_tree.specs.Spelled.{count_of_locals, most_locals};
ghost use Rattle.wasm_valid.specs.Ends.{ends_of};

use std::alloc::AllocError;
use wasm_tree::{LocalRun, ValType};

/// Puts the ends of these runs into the list: how many locals there are up to each.
#[tactic(auto, using(crate::proofs::LocalLemmas::ends_pushed, crate::proofs::LocalLemmas::count_pushed, crate::proofs::LocalLemmas::count_below))]
pub fn put_ends(ends: &mut Vec<u64>, runs: &[LocalRun]) -> Result<(), AllocError>
    requires { count_of_locals runs.now ≤ most_locals }
    ensures { OnOk result (ends.new.items ≡ ends_of 0 runs.now) }
{
    ends.clear();
    let mut end: u64 = 0;
    for run in runs {
        end += run.count as u64;
        ends.push(end)?;
    }
    Ok(())
}

/// How many locals these runs declare.
#[tactic(auto, using(crate::proofs::LocalLemmas::count_pushed, crate::proofs::LocalLemmas::count_below))]
pub fn count_locals(runs: &[LocalRun]) -> u64
    requires { count_of_locals runs.now ≤ most_locals }
    ensures same { result ≡ count_of_locals runs.now }
    ensures few { result ≤ most_locals }
{
    let mut count: u64 = 0;
    for run in runs {
        count += run.count as u64;
    }
    count
}

/// The first of the ends, which don't fall, that is past the number.
fn first_past(ends: &[u64], number: u64) -> usize
    ensures within { result ≤ length ends.now }
    ensures before { 0 < result → slice_index ends.now (result - 1) ≤ number }
    ensures behind { result < length ends.now → number < slice_index ends.now result }
{
    let mut low = 0;
    let mut high = ends.len();
    while low < high {
        let middle = low + (high - low) / 2;
        if ends[middle] <= number {
            low = middle + 1;
        } else {
            high = middle;
        }
    }
    low
}

/// The type of the local of this number among parameters of these types and the locals in runs with these ends.
#[tactic(auto, using(crate::proofs::LocalLemmas::parameter, crate::proofs::LocalLemmas::declared, crate::proofs::LocalLemmas::lacks))]
pub fn local_type(
    params: &[ValType],
    runs: &[LocalRun],
    ends: &[u64],
    local: u32,
) -> Option<ValType>
    requires { ends.now ≡ ends_of 0 runs.now }
    ensures { result ≡ slice_get (params.now ++ declared_locals runs.now) local }
{
    let local = local as usize;
    let count = params.len();
    if local < count {
        return Some(params[local]);
    }
    let at = first_past(ends, (local - count) as u64);
    if at < runs.len() {
        return Some(runs[at].ty);
    }
    None
}
