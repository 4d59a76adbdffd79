ghost use Rattle.std.specs.Prelude.{◌≡◌, ◌<◌, length, map, All, IfOk, IfErr, OnOk, true};
ghost use Rattle.cm_core.specs.Consistent.{IsConsistent, is_graph};
ghost use Rattle.cm_core.specs.Expanded.{connections as all_connections};
ghost use Rattle.cm_core.specs.Tree.{leaf_nodes, node_at};
ghost use Rattle.cm_core.specs.Routes.{routes};
ghost use Rattle.graph_flat.specs.Chains.{HasSoundRoutes};
ghost use Rattle.graph_flat.specs.Paths.{path_of};
ghost use Rattle.graph_flat.specs.Refusal.{IsRefusal};
ghost use Rattle.graph_flat.specs.Sound.{IsSoundLink};

use crate::ends::{starts_of, targets_of};
use crate::paths::Path;
use crate::preparing::prepare;
use crate::searching::{route_count, search};
use crate::sharing::shared_value;
use cm_base::limits::CHAINS;
use cm_base::{Cause, Fail, NodeId};
use cm_core::{Connection, Program};
use std::alloc::Global;

/// The paths of a graph's chains, from its leaves and connections.
pub fn route_paths(
    alloc: Global,
    program: &Program,
    leaves: &[NodeId],
    connections: Vec<Connection>,
) -> Result<Vec<Path>, Fail>
    requires program { IsConsistent program.now }
    requires leaves { leaves.now ≡ leaf_nodes program.now }
    requires graph { is_graph (node_at program.now program.now.main).body ≡ true }
    requires connections { connections.items ≡ all_connections program.now }
    requires sound { All (IsSoundLink program.now) program.now.links }
    ensures found { IfOk result (λ paths. paths.items ≡ map path_of (routes program.now)) }
    ensures within { IfOk result (λ paths. All (λ x. (x.from.0 < length program.now.ends) × (x.to.0 < length program.now.ends)) paths.items) }
    ensures sound { OnOk result (HasSoundRoutes program.now) }
    ensures refused { IfErr result (IsRefusal program.now) }
{
    let targets = targets_of(alloc, program, leaves)?;
    let wires = prepare(alloc, program, connections, targets)?;
    let starts = starts_of(alloc, program, leaves)?;
    if route_count(&wires, &starts) > CHAINS as u64 {
        return Err(Fail::refused(alloc, Cause::TooManyChains, program.place));
    }
    let paths = search(alloc, &wires, &starts)?;
    let shared = shared_value(alloc, program, &paths)?;
    match shared {
        Some(place) => Err(Fail::refused(alloc, Cause::ValueSources, place)),
        None => Ok(paths),
    }
}
