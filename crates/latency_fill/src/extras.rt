ghost use Rattle.std.specs.Prelude.{◌≡◌, ◌≤◌, ℕ, true, All, IfOk, length, map, slice_index};
ghost use Rattle.cm_core.specs.Flats.{IsLeafBelow, IsSmall, NamesLeaves};
ghost use Rattle.latency_fill.specs.Walks.{is_timed as is_timed_chain, leaf_of};
ghost use Rattle.latency_fill.specs.Fills.{arrival_at, arrives, departs, departure_at, extra_of};

use crate::chains::is_timed;
use cm_core::{Chain, Flat, Point};
use std::alloc::{AllocError, Global};

/// When a stream leaves a point: the arrival and the latency of its leaf together, or 0 at an input of the host.
fn departure(flat: &Flat, arrive: &[u32], from: &Point) -> u32
    requires small { IsSmall flat.now }
    requires low { (p : ℕ) → slice_index arrive.now p ≤ 268435456 }
    requires len { length arrive.now ≡ length flat.now.leaves }
    requires within { IsLeafBelow (length flat.now.leaves) from.now.leaf }
    ensures { result ≡ departure_at flat.now arrive.now (leaf_of from.now.leaf) }
{
    match from.leaf {
        Some(leaf) => arrive[leaf.0 as usize] + flat.leaves.as_slice()[leaf.0 as usize].latency,
        None => 0,
    }
}

/// When a stream arrives at a point: at a leaf, or after the latency of the patch at an output of the host.
fn arrival(arrive: &[u32], latency: u32, to: &Point) -> u32
    requires { IsLeafBelow (length arrive.now) to.now.leaf }
    ensures { result ≡ arrival_at arrive.now latency (leaf_of to.now.leaf) }
{
    match to.leaf {
        Some(leaf) => arrive[leaf.0 as usize],
        None => latency,
    }
}

/// The extra delay of a chain.
fn extra(flat: &Flat, arrive: &[u32], latency: u32, chain: &Chain) -> u32
    requires small { IsSmall flat.now }
    requires low { (p : ℕ) → slice_index arrive.now p ≤ 268435456 }
    requires len { length arrive.now ≡ length flat.now.leaves }
    requires from { IsLeafBelow (length flat.now.leaves) chain.now.from.leaf }
    requires to { IsLeafBelow (length flat.now.leaves) chain.now.to.leaf }
    requires fits { is_timed_chain chain.now ≡ true → departs flat.now arrive.now chain.now ≤ arrives arrive.now latency chain.now }
    ensures { result ≡ extra_of flat.now arrive.now latency chain.now }
{
    if is_timed(chain) {
        arrival(arrive, latency, &chain.to) - departure(flat, arrive, &chain.from)
    } else {
        0
    }
}

/// The extra delay of each chain.
pub fn extras(
    alloc: Global,
    flat: &Flat,
    arrive: &[u32],
    latency: u32,
) -> Result<Vec<u32>, AllocError>
    requires small { IsSmall flat.now }
    requires low { (p : ℕ) → slice_index arrive.now p ≤ 268435456 }
    requires len { length arrive.now ≡ length flat.now.leaves }
    requires within { NamesLeaves flat.now }
    requires fits { All (λ chain. is_timed_chain chain ≡ true → departs flat.now arrive.now chain ≤ arrives arrive.now latency chain) flat.now.chains }
    ensures { IfOk result (λ extras. extras.items ≡ map (extra_of flat.now arrive.now latency) flat.now.chains) }
{
    let mut extras = Vec::with_capacity(alloc, flat.chains.len())?;
    for chain in flat.chains.as_slice() {
        extras.push(extra(flat, arrive, latency, chain))?;
    }
    Ok(extras)
}
