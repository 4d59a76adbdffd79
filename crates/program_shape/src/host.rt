ghost use Rattle.std.specs.Prelude.{◌≡◌, ◌<◌, ◌^◌, ℕ, IsTrue, IfOk, All, length, slice_index_or};
ghost use Rattle.std.specs.List.{AllByRecursion};
ghost use Rattle.cm_base.specs.declared.host.HostEnd.{HostEnd as TheHostEnd};
ghost use Rattle.cm_base.specs.declared.place.EndId.{EndId as TheEndId};
ghost use Rattle.cm_base.specs.HostEnds.{IsLawful, IsLawfulScalar, IsLawfulEnd, IsLawfulRange, AreDistinct, names_of};
ghost use Rattle.cm_core.specs.Tree.{end_at, node_at};
ghost use Rattle.cm_core.specs.Consistent.{IsHostEnd, IsNode};

use crate::same::has_parts;
use cm_base::{EndId, Flow, HostEnd, Kind, Name, Scalar};
use cm_core::Program;
use std::alloc::{AllocError, Global};
use std::collections::HashMap;

/// Whether the endpoints of the host are those of main.
pub fn are_host_ends(program: &Program) -> bool
    requires main { program.now.main.0 < length program.now.nodes }
    requires nodes { All (IsNode program.now) program.now.nodes }
    ensures count { IsTrue result → length program.now.host ≡ length (node_at program.now program.now.main).ends }
    ensures host { IsTrue result → (k : ℕ) (d : TheHostEnd) (e : TheEndId) → k < length program.now.host → IsHostEnd (slice_index_or program.now.host k d) (end_at program.now (slice_index_or (node_at program.now program.now.main).ends k e)) }
{
    let ends = program.node(program.main).ends.as_slice();
    let host = program.host.as_slice();
    if host.len() != ends.len() {
        return false;
    }
    for at in 0..host.len() {
        if !is_host_end(program, &host[at], ends[at]) {
            return false;
        }
    }
    true
}

/// Whether an endpoint of the host is as this one.
fn is_host_end(program: &Program, host: &HostEnd, end: EndId) -> bool
    requires { end.0 < length program.now.ends }
    ensures { IsTrue result → IsHostEnd host.now (end_at program.now end) }
{
    has_parts(
        program.end(end),
        host.flow,
        host.kind,
        &host.name,
        &host.shape,
    )
}

fn is_lawful_scalar(scalar: Scalar) -> bool
    ensures { IsTrue result → IsLawfulScalar scalar }
{
    match scalar {
        Scalar::Int32 | Scalar::Int64 | Scalar::Bool => true,
        Scalar::Wrap(count) | Scalar::Clamp(count) => count >= 1 && count < 1 << 31,
    }
}

fn are_lawful_scalars(shape: &[Scalar]) -> bool
    ensures { IsTrue result → All IsLawfulScalar shape.now }
{
    for scalar in shape {
        if !is_lawful_scalar(*scalar) {
            return false;
        }
    }
    true
}

/// Whether the range, if there is one, can be that of a parameter.
fn is_lawful_range(end: &HostEnd) -> bool
    ensures { IsTrue result → IsLawfulRange end.now end.now.parameter }
{
    match &end.parameter {
        None => true,
        Some(range) => {
            end.flow == Flow::Input
                && end.kind != Kind::Stream
                && matches!(end.shape.as_slice(), [Scalar::Int32])
                && range.min <= range.init
                && range.init <= range.max
        }
    }
}

fn are_lawful_ends(ends: &[HostEnd]) -> bool
    ensures { IsTrue result → All IsLawfulEnd ends.now }
{
    for end in ends {
        if !are_lawful_scalars(end.shape.as_slice()) || !is_lawful_range(end) {
            return false;
        }
    }
    true
}

/// Whether no name stands twice.
fn have_own_names(alloc: Global, ends: &[HostEnd]) -> Result<bool, AllocError>
    ensures { IfOk result (λ own. IsTrue own → AreDistinct (names_of ends.now)) }
{
    let mut numbers = HashMap::with_capacity(alloc, ends.len())?;
    for number in (0..ends.len()).rev() {
        if numbers
            .insert(ends[number].name.as_str(), number)?
            .is_some()
        {
            return Ok(false);
        }
    }
    Ok(true)
}

/// Whether the endpoints can belong to a patch.
pub fn are_lawful(alloc: Global, ends: &[HostEnd]) -> Result<bool, AllocError>
    ensures { IfOk result (λ lawful. IsTrue lawful → IsLawful ends.now) }
{
    let own = have_own_names(alloc, ends)?;
    Ok(own && ends.len() < 1 << 32 && are_lawful_ends(ends))
}
