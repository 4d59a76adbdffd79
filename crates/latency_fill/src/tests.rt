use crate::{fill, is_small};
use cm_base::{EndId, Kind, LeafId, Name, NodeId, Place, Shape};
use cm_core::{Chain, Chains, Filled, Flat, Leaf, Leaves, Point};
use graph_order::{names_leaves, order};
use std::alloc::{AllocError, Global};

/// A chain from a leaf or the host to a leaf or the host, its kind and its delay.
type Row = (Option<u32>, Option<u32>, Kind, u64);

fn point(leaf: Option<u32>) -> Point {
    Point {
        leaf: leaf.map(|number| LeafId(number)),
        end: EndId(0),
    }
}

fn flat_of(alloc: Global, latencies: &[u32], rows: &[Row]) -> Result<Flat, AllocError> {
    let mut leaves = Vec::new(alloc);
    for latency in latencies {
        leaves.push(Leaf {
            node: NodeId(0),
            unit: 0,
            path: Name::from_str(alloc, "a")?,
            latency: *latency,
        })?;
    }
    let mut chains = Vec::new(alloc);
    for (from, to, kind, delay) in rows {
        chains.push(Chain {
            from: point(*from),
            to: point(*to),
            kind: *kind,
            shape: Shape::new(alloc),
            delay: *delay,
            place: Place {
                file: 1,
                line: 1,
                column: 1,
            },
        })?;
    }
    Ok(Flat {
        leaves: Leaves::from_vec(leaves),
        chains: Chains::from_vec(chains),
    })
}

fn filled(alloc: Global, flat: &Flat) -> Option<Filled> {
    if !is_small(flat) || !names_leaves(flat) {
        return None;
    }
    match order(alloc, flat) {
        Ok(found) => fill(alloc, flat, &found).ok(),
        Err(_) => None,
    }
}

/// What is due: arrivals, extra delays and the latency of the patch.
type Due<'a> = (&'a [u32], &'a [u32], u32);

fn is_due(alloc: Global, flat: &Flat, want: Due) -> bool {
    match filled(alloc, flat) {
        Some(found) => {
            found.arrive.as_slice() == want.0
                && found.extra.as_slice() == want.1
                && found.latency == want.2
        }
        None => false,
    }
}

#[test]
fn fills(rt: HostRuntime) -> Result<(), AllocError> {
    let alloc = rt.alloc();
    let rows: [(&[u32], &[Row], Due); 9] = [
        (&[], &[], (&[], &[], 0)),
        // A leaf that nothing leads from has a latency that nobody waits for.
        (&[7], &[], (&[0], &[], 0)),
        // One leaf of latency 2, and a way past it.
        (
            &[2],
            &[
                (None, Some(0), Kind::Stream, 0),
                (None, None, Kind::Stream, 0),
                (Some(0), None, Kind::Stream, 0),
            ],
            (&[0], &[0, 2, 0], 2),
        ),
        // Three leaves of latency 2, declared from the last to the first, and a way past them.
        (
            &[2, 2, 2],
            &[
                (None, Some(2), Kind::Stream, 0),
                (None, None, Kind::Stream, 0),
                (Some(0), None, Kind::Stream, 0),
                (Some(1), Some(0), Kind::Stream, 0),
                (Some(2), Some(1), Kind::Stream, 0),
            ],
            (&[4, 2, 0], &[0, 6, 0, 0, 0], 6),
        ),
        // Two ways that meet again.
        (
            &[1, 5, 3, 2],
            &[
                (None, Some(0), Kind::Stream, 0),
                (Some(0), Some(1), Kind::Stream, 0),
                (Some(0), Some(2), Kind::Stream, 0),
                (Some(1), Some(3), Kind::Stream, 0),
                (Some(2), Some(3), Kind::Stream, 0),
                (Some(3), None, Kind::Stream, 0),
            ],
            (&[0, 1, 1, 6], &[0, 0, 0, 0, 2, 0], 8),
        ),
        // All outputs of the host wait for the last one.
        (
            &[4, 9],
            &[
                (None, Some(0), Kind::Stream, 0),
                (None, Some(1), Kind::Stream, 0),
                (Some(0), None, Kind::Stream, 0),
                (Some(1), None, Kind::Stream, 0),
            ],
            (&[0, 0], &[0, 0, 5, 0], 9),
        ),
        // Delayed chains, and chains of values and events, neither carry latency nor get extra delays.
        (
            &[4, 1],
            &[
                (Some(0), Some(1), Kind::Stream, 3),
                (Some(0), Some(1), Kind::Value, 0),
                (Some(0), Some(1), Kind::Event, 0),
                (Some(1), None, Kind::Stream, 1),
                (Some(0), None, Kind::Value, 0),
            ],
            (&[0, 0], &[0, 0, 0, 0, 0], 0),
        ),
        // A leaf that nothing leads to arrives at 0, and its stream waits at the leaf behind it.
        (
            &[10, 0, 0],
            &[
                (Some(0), Some(2), Kind::Stream, 0),
                (Some(1), Some(2), Kind::Stream, 0),
            ],
            (&[0, 0, 10], &[0, 10], 0),
        ),
        // Delayed feedback.
        (
            &[3],
            &[
                (None, Some(0), Kind::Stream, 0),
                (Some(0), Some(0), Kind::Stream, 1),
                (Some(0), None, Kind::Stream, 0),
            ],
            (&[0], &[0, 0, 0], 3),
        ),
    ];
    for (latencies, chains, want) in rows {
        let flat = flat_of(alloc, latencies, chains)?;
        assert!(rt; is_due(alloc, &flat, want), "at {latencies:?}");
    }
    Ok(())
}

// As many leaves in a row as a patch may have, of the greatest latency, declared from the last to the first.
#[test]
fn at_the_limits(rt: HostRuntime) -> Result<(), AllocError> {
    let alloc = rt.alloc();
    let count: u32 = 4096;
    let latencies = vec![in alloc; 65536; 4096]?;
    let mut rows = Vec::new(alloc);
    rows.push((None, Some(count - 1), Kind::Stream, 0))?;
    rows.push((None, None, Kind::Stream, 0))?;
    rows.push((Some(0), None, Kind::Stream, 0))?;
    for leaf in 0..count - 1 {
        rows.push((Some(leaf + 1), Some(leaf), Kind::Stream, 0))?;
    }
    let flat = flat_of(alloc, &latencies, &rows)?;
    match filled(alloc, &flat) {
        Some(found) => {
            assert!(rt; found.latency == 268_435_456);
            assert!(rt; found.arrive.as_slice().first().copied() == Some(268_369_920));
            assert!(rt; found.extra.as_slice().get(1).copied() == Some(268_435_456));
        }
        None => assert!(rt; false, "no fill"),
    }
    Ok(())
}
