ghost use Rattle.std.specs.Prelude.{◌≡◌, ◌≢◌, ◌<◌, ◌↔◌, true, length, IsTrue, IsSome, MatchOption, is_some};
ghost use Rattle.cm_base.specs.declared.host.Kind.TheVariants.{Stream};
ghost use Rattle.cm_core.specs.Expanded.{group_at, picked, is_spread};
ghost use Rattle.cm_core.specs.Consistent.{IsConsistent, IsLink};
ghost use Rattle.cm_core.specs.GraphFaults.{LinkFault, IsDelay};
ghost use Rattle.graph_flat.specs.Sound.{IsSoundLink};

use crate::sides::{declared_end, group_at, is_source, is_spread, picked};
use cm_base::limits::DELAY;
use cm_base::{Cause, Kind, Place};
use cm_core::{Link, Program, Side};

/// What is wrong with a written connection, and where.
#[derive(Clone, Copy, Debug, PartialEq, Eq)]
pub struct Fault {
    pub cause: Cause,
    pub place: Place,
}

/// Whether a delay is in its range.
fn is_delay(delay: Option<i64>) -> bool
    ensures { IsTrue result ↔ IsDelay delay }
{
    match delay {
        None => true,
        Some(frames) => frames >= 0 && frames <= DELAY as i64,
    }
}

fn is_same_kind(one: Kind, other: Kind) -> bool
    ensures { IsTrue result ↔ (one ≡ other) }
{
    one == other
}

/// Whether there is a delay where none may be.
fn is_misplaced(delay: Option<i64>, kind: Kind) -> bool
    ensures { IsTrue result ↔ (IsSome delay × (kind ≢ Stream)) }
{
    delay.is_some() && kind != Kind::Stream
}

/// Whether the index of a point is one that may be written.
fn is_picked(program: &Program, side: &Side) -> bool
    requires { side.now.group < length program.now.groups }
    ensures { result ≡ is_some (picked (group_at program.now side.now) side.now.index) }
{
    picked(group_at(program, side), side.index).is_some()
}

/// Whether both sides are arrays, of different sizes.
fn differ_in_count(program: &Program, link: &Link) -> bool
    requires from { link.now.from.group < length program.now.groups }
    requires to { link.now.to.group < length program.now.groups }
    ensures { IsTrue result ↔ ((is_spread program.now link.now.from ≡ true) × (is_spread program.now link.now.to ≡ true)
        × (length (group_at program.now link.now.from).nodes ≢ length (group_at program.now link.now.to).nodes)) }
{
    let sources = group_at(program, &link.from).nodes.len();
    let destinations = group_at(program, &link.to).nodes.len();
    is_spread(program, &link.from) && is_spread(program, &link.to) && sources != destinations
}

/// A fault of a written connection, where it has one.
pub fn fault_of(program: &Program, link: &Link) -> Option<Fault>
    requires program { IsConsistent program.now }
    requires link { IsLink program.now link.now }
    ensures { MatchOption result (IsSoundLink program.now link.now) (λ f. LinkFault program.now link.now f.cause f.place) }
{
    let place = link.place;
    let (from, to) = (&link.from, &link.to);
    let source = declared_end(program, from);
    let destination = declared_end(program, to);
    if !is_source(program, from) {
        return Some(Fault {
            cause: Cause::ConnectionEnd,
            place: from.place,
        });
    }
    if is_source(program, to) {
        return Some(Fault {
            cause: Cause::ConnectionEnd,
            place: to.place,
        });
    }
    if !is_picked(program, from) {
        return Some(Fault {
            cause: Cause::NodeIndex,
            place: from.place,
        });
    }
    if !is_picked(program, to) {
        return Some(Fault {
            cause: Cause::NodeIndex,
            place: to.place,
        });
    }
    if differ_in_count(program, link) {
        return Some(Fault {
            cause: Cause::NodeCount,
            place,
        });
    }
    if !is_same_kind(source.kind, destination.kind) {
        return Some(Fault {
            cause: Cause::ConnectionKind,
            place,
        });
    }
    if !source.ty.is_same(&destination.ty) {
        return Some(Fault {
            cause: Cause::ConnectionType,
            place,
        });
    }
    if is_misplaced(link.delay, source.kind) {
        return Some(Fault {
            cause: Cause::DelayKind,
            place,
        });
    }
    if !is_delay(link.delay) {
        return Some(Fault {
            cause: Cause::DelayRange,
            place,
        });
    }
    None
}
