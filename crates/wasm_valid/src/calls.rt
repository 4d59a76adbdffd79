ghost use Rattle.std.specs.Prelude.{◌≡◌, ◌<◌, ◌+◌, ◌^◌, [], ◌++◌, length, IfOk, IfSome, OnOk, None};
ghost use Rattle.std.specs.List.{cons_option};
ghost use Rattle.wasm_tree.specs.Host.{HasImport};
ghost use Rattle.wasm_tree.specs.Valid.{AreBodiesIndexed, AreBodiesWithinLimits, CallCycle};
ghost use Rattle.wasm_valid.specs.CallEdges.{edge_of, calls_in, all_calls};

use cm_base::NoMemory;
use graph_search::{Edge, Indices, SearchFail, cycle_leads_back, ranked_never_leads_back, ranks};
use std::alloc::{AllocError, Global};
use wasm_tree::{FuncBody, Instr, Module};

/// The edge of a call from the function of this number.
fn call_of(from: u32, instr: &Instr) -> Option<Edge>
    ensures { result ≡ edge_of from instr.now }
{
    match instr {
        Instr::Call(to) => Some(Edge { from, to: *to }),
        _ => None,
    }
}

/// Adds the edge, if there is one.
fn put(edges: &mut Vec<Edge>, edge: Option<Edge>) -> Result<(), AllocError>
    ensures { OnOk result (edges.new.items ≡ edges.old.items ++ cons_option edge []) }
{
    if let Some(edge) = edge {
        edges.push(edge)?;
    }
    Ok(())
}

/// Adds an edge for each call in the code of the function of this number.
#[tactic(auto, using(crate::proofs::CallLemmas::calls_grow))]
fn add_calls(edges: &mut Vec<Edge>, from: u32, code: &[Instr]) -> Result<(), AllocError>
    ensures { OnOk result (edges.new.items ≡ edges.old.items ++ calls_in from code.now) }
{
    for instr in code {
        put(edges, call_of(from, instr))?;
    }
    Ok(())
}

/// An edge for each call in these bodies, which are of the functions from number 1 on.
#[tactic(auto, using(crate::proofs::CallLemmas::calls_on))]
pub fn call_edges(alloc: Global, bodies: &[FuncBody]) -> Result<Vec<Edge>, AllocError>
    requires { length bodies.now + 1 < 2 ^ 32 }
    ensures { IfOk result (λ edges. edges.items ≡ all_calls 1 bodies.now) }
{
    let mut edges = Vec::new(alloc);
    for at in 0..bodies.len() {
        add_calls(&mut edges, at as u32 + 1, bodies[at].code.as_slice())?;
    }
    Ok(edges)
}

/// A number for each function that falls along every call, if no function calls itself, also not through others.
#[tactic(auto, using(crate::proofs::CallLemmas::ranked_free, crate::proofs::CallLemmas::cycle_calls, crate::proofs::CallLemmas::edges_within))]
pub fn call_ranks(alloc: Global, module: &Module) -> Result<Option<Indices>, NoMemory>
    requires import { HasImport «module».now }
    requires indexed { AreBodiesIndexed «module».now }
    requires limits { AreBodiesWithinLimits «module».now }
    requires counts { length «module».now.functions ≡ length «module».now.codes }
    requires few { length «module».now.codes + 1 < 2 ^ 32 }
    ensures free { IfOk result (λ found. IfSome found (λ ranks. CallCycle «module».now)) }
    ensures cyclic { IfOk result (λ found. found ≡ None → ¬ CallCycle «module».now) }
    ensures count { IfOk result (λ found. IfSome found (λ ranks. length ranks ≡ length «module».now.codes + 1)) }
{
    let edges = call_edges(alloc, module.codes.as_slice())?;
    cycle_leads_back();
    ranked_never_leads_back();
    match ranks(alloc, module.codes.len() as u32 + 1, &edges) {
        Ok(found) => Ok(Some(found)),
        Err(SearchFail::Cycle(_)) => Ok(None),
        Err(SearchFail::NoMemory) => Err(NoMemory),
    }
}
