// What the calls require of endpoints and of a run.

ghost use Rattle.std.specs.Prelude.{◌≡◌, ◌≢◌, ◌↔◌, ◌<◌, ◌^◌, IsTrue, [], ◌∷◌, length};
ghost use Rattle.std.specs.List.{AllByRecursion};
ghost use Rattle.cm_base.specs.declared.host.Scalar.TheVariants.{Int32};
ghost use Rattle.cm_base.specs.HostEnds.{IsLawfulScalar, IsLawfulRange, IsLawfulEnd, IsLawful, names_of, AreDistinct};
ghost use Rattle.saved_state.specs.Version2.{IsCounted};
ghost use Rattle.saved_state.specs.Applied.{AreShort};

use cm_base::{Flow, HostEnd, HostEnds, Kind, Range, Scalar, Snapshot};

/// Whether the count of a wrapping or held number is one.
fn is_lawful_scalar(kind: Scalar) -> bool
    ensures { IsTrue result ↔ IsLawfulScalar kind }
{
    match kind {
        Scalar::Int32 => true,
        Scalar::Int64 => true,
        Scalar::Bool => true,
        Scalar::Wrap(count) => 1 <= count && count <= i32::MAX as u32,
        Scalar::Clamp(count) => 1 <= count && count <= i32::MAX as u32,
    }
}

fn are_lawful_scalars(shape: &[Scalar]) -> bool
    ensures { IsTrue result ↔ AllByRecursion IsLawfulScalar shape.now }
{
    shape.iter().all(|kind| is_lawful_scalar(*kind))
}

fn is_one_int32(shape: &[Scalar]) -> bool
    ensures { IsTrue result ↔ (shape.now ≡ Int32 ∷ []) }
{
    match shape {
        [Scalar::Int32] => true,
        _ => false,
    }
}

/// Whether the endpoint may have the range, if it has one.
fn is_lawful_range(end: &HostEnd, range: Option<Range>) -> bool
    ensures { IsTrue result ↔ IsLawfulRange end.now range }
{
    match range {
        None => true,
        Some(range) => {
            end.flow == Flow::Input
                && end.kind != Kind::Stream
                && is_one_int32(end.shape.as_slice())
                && range.min <= range.init
                && range.init <= range.max
        }
    }
}

fn is_lawful_end(end: &HostEnd) -> bool
    ensures { IsTrue result ↔ IsLawfulEnd end.now }
{
    are_lawful_scalars(end.shape.as_slice()) && is_lawful_range(end, end.parameter)
}

fn are_lawful_ends(ends: &[HostEnd]) -> bool
    ensures { IsTrue result ↔ AllByRecursion IsLawfulEnd ends.now }
{
    ends.iter().all(|end| is_lawful_end(end))
}

/// Whether none of the endpoints has the name.
fn is_new(name: &str, ends: &[HostEnd]) -> bool
    ensures { IsTrue result → AllByRecursion (λ other. other ≢ name.now) (names_of ends.now) }
{
    let mut left = ends;
    while let Some((end, others)) = left.split_first() {
        if end.name.as_str() == name {
            return false;
        }
        left = others;
    }
    true
}

/// Whether no name stands twice.
fn are_distinct(ends: &[HostEnd]) -> bool
    ensures { IsTrue result → AreDistinct (names_of ends.now) }
{
    let mut left = ends;
    while let Some((end, others)) = left.split_first() {
        if !is_new(end.name.as_str(), others) {
            return false;
        }
        left = others;
    }
    true
}

/// Whether the endpoints can belong to a patch. It takes a time that grows with the square of their count.
pub fn are_lawful(host: &HostEnds) -> bool
    ensures { IsTrue result → IsLawful host.now }
{
    let ends = host.as_slice();
    ends.len() < 1 << 32 && are_lawful_ends(ends) && are_distinct(ends)
}

fn have_short_names(ends: &[HostEnd]) -> bool
    ensures { IsTrue result ↔ AllByRecursion (λ end. IsCounted end.name) ends.now }
{
    ends.iter().all(|end| end.name.as_bytes().len() < 1 << 32)
}

/// Whether names and counts are short enough for a state file.
pub fn is_short(ends: &[HostEnd], code: &[u8], snapshot: &Snapshot) -> bool
    ensures { IsTrue result → AreShort ends.now code.now snapshot.now }
{
    have_short_names(ends)
        && code.len() < 1 << 32
        && snapshot.memory.len() < 1 << 32
        && snapshot.globals.len() < 1 << 32
        && snapshot.current.len() < 1 << 32
}
