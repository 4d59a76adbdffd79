ghost use Rattle.std.specs.Prelude.{◌≡◌, ◌<◌, ◌↔◌, IsTrue, All, length, map};
ghost use Rattle.cm_core.specs.Tree.{end_at};

use cm_base::{EndId, Flow, Kind, Name, Scalar, Shape};
use cm_core::{End, Program};

/// Whether an endpoint has this flow and kind.
fn carries(end: &End, flow: Flow, kind: Kind) -> bool
    ensures { IsTrue result → (flow ≡ end.now.flow) × (kind ≡ end.now.kind) }
{
    flow == end.flow && kind == end.kind
}

/// Whether two shapes are the same.
fn are_same(scalars: &[Scalar], others: &[Scalar]) -> bool
    ensures { IsTrue result → scalars.now ≡ others.now }
{
    if scalars.len() != others.len() {
        return false;
    }
    for at in 0..scalars.len() {
        if scalars[at] != others[at] {
            return false;
        }
    }
    true
}

/// Whether an endpoint has this name and shape.
fn is_named(end: &End, name: &Name, shape: &Shape) -> bool
    ensures { IsTrue result → (name.now ≡ end.now.name) × (shape.now ≡ end.now.shape) }
{
    name.as_str() == end.name.as_str() && are_same(shape.as_slice(), end.shape.as_slice())
}

/// Whether an endpoint has this flow, kind, name and shape.
pub fn has_parts(end: &End, flow: Flow, kind: Kind, name: &Name, shape: &Shape) -> bool
    ensures { IsTrue result → (flow ≡ end.now.flow) × (kind ≡ end.now.kind) × (name.now ≡ end.now.name) × (shape.now ≡ end.now.shape) }
{
    carries(end, flow, kind) && is_named(end, name, shape)
}

/// Whether two endpoints are the same but for their numbers.
#[tactic(auto, using(crate::proofs::SameEnds::same_end))]
fn is_same_end(end: &End, other: &End) -> bool
    ensures { IsTrue result → end.now ≡ other.now }
{
    has_parts(other, end.flow, end.kind, &end.name, &end.shape) && end.ty.is_same(&other.ty)
}

/// Whether the endpoints of these numbers are as these.
pub fn are_as(program: &Program, ids: &[EndId], ends: &[End]) -> bool
    requires { All (λ e. e.0 < length program.now.ends) ids.now }
    ensures { IsTrue result → map (end_at program.now) ids.now ≡ ends.now }
{
    if ids.len() != ends.len() {
        return false;
    }
    for at in 0..ids.len() {
        if !is_same_end(program.end(ids[at]), &ends[at]) {
            return false;
        }
    }
    true
}

/// Whether the endpoints of these numbers are as those of the other numbers, in order.
pub fn are_alike(program: &Program, ids: &[EndId], others: &[EndId]) -> bool
    requires ids { All (λ e. e.0 < length program.now.ends) ids.now }
    requires others { All (λ e. e.0 < length program.now.ends) others.now }
    ensures { IsTrue result → map (end_at program.now) ids.now ≡ map (end_at program.now) others.now }
{
    if ids.len() != others.len() {
        return false;
    }
    for at in 0..ids.len() {
        if !is_same_end(program.end(ids[at]), program.end(others[at])) {
            return false;
        }
    }
    true
}
