ghost use Rattle.std.specs.Prelude.{◌≡◌, ◌<◌, All, IfOk, [], vec_len};
ghost use Rattle.cm_base.specs.Parts.{is_event as is_event_kind};
ghost use Rattle.memory_layout.specs.Events.{AreEvents, event_of as the_event_of};

use cm_base::{Kind, LeafId};
use cm_core::{Chain, Point};
use std::alloc::{AllocError, Global};

/// An event chain: the leaf that it starts at, or none where it starts at the host; the scalars that it counts for; and where
/// it ends.
#[derive(Clone, Copy)]
pub struct Event {
    pub from: Option<LeafId>,
    pub scalars: u64,
    pub to: Point,
}

fn is_event(chain: &Chain) -> bool
    ensures { result ≡ is_event_kind chain.now.kind }
{
    match chain.kind {
        Kind::Event => true,
        Kind::Stream | Kind::Value => false,
    }
}

fn event_of(chain: &Chain) -> Event
    ensures { result ≡ the_event_of chain.now }
{
    Event {
        from: chain.from.leaf,
        scalars: (chain.shape.len() as u64).max(1),
        to: chain.to,
    }
}

// A list for each endpoint, with nothing in it.
fn empty_lists(alloc: Global, count: usize) -> Result<Vec<Vec<Event>>, AllocError>
    ensures len { IfOk result (λ lists. vec_len lists ≡ count) }
    ensures empty { IfOk result (λ lists. AreEvents [] count lists.items) }
{
    let mut lists = Vec::with_capacity(alloc, count)?;
    for _ in 0..count {
        lists.push(Vec::new(alloc))?;
    }
    Ok(lists)
}

/// For each endpoint the event chains that start there. Fails where memory runs out.
pub fn events_by_start(
    alloc: Global,
    chains: &[Chain],
    count: usize,
) -> Result<Vec<Vec<Event>>, AllocError>
    requires { All (λ chain. chain.from.end.0 < count) chains.now }
    ensures len { IfOk result (λ lists. vec_len lists ≡ count) }
    ensures events { IfOk result (λ lists. AreEvents chains.now count lists.items) }
{
    let mut lists = empty_lists(alloc, count)?;
    for chain in chains {
        if is_event(chain) {
            lists[chain.from.end.0 as usize].push(event_of(chain))?;
        }
    }
    Ok(lists)
}
