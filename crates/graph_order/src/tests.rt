use crate::{names_leaves, order};
use cm_base::{Cause, EndId, Fail, Kind, LeafId, Name, NodeId, Place, Refused, Shape};
use cm_core::{Chain, Chains, Flat, Leaf, Leaves, Point};
use std::alloc::{AllocError, Global};

/// A chain from a leaf or the host to a leaf or the host, its kind, its delay, and the line of its first connection.
type Row = (Option<u32>, Option<u32>, Kind, u64, u32);

fn point(leaf: Option<u32>) -> Point {
    Point {
        leaf: leaf.map(|number| LeafId(number)),
        end: EndId(0),
    }
}

fn flat_of(alloc: Global, paths: &[&str], rows: &[Row]) -> Result<Flat, AllocError> {
    let mut leaves = Vec::new(alloc);
    for path in paths {
        leaves.push(Leaf {
            node: NodeId(0),
            unit: 0,
            path: Name::from_str(alloc, path)?,
            latency: 0,
        })?;
    }
    let mut chains = Vec::new(alloc);
    for (from, to, kind, delay, line) in rows {
        chains.push(Chain {
            from: point(*from),
            to: point(*to),
            kind: *kind,
            shape: Shape::new(alloc),
            delay: *delay,
            place: Place {
                file: 1,
                line: *line,
                column: 12,
            },
        })?;
    }
    Ok(Flat {
        leaves: Leaves::from_vec(leaves),
        chains: Chains::from_vec(chains),
    })
}

/// Whether the leaves have this order.
fn has_order(alloc: Global, flat: &Flat, want: &[u32]) -> bool {
    if flat.leaves.len() > 4096 || !names_leaves(flat) {
        return false;
    }
    match order(alloc, flat) {
        Ok(found) => found
            .as_slice()
            .iter()
            .map(|id| id.0)
            .eq(want.iter().copied()),
        Err(_) => false,
    }
}

fn refusal_of(alloc: Global, flat: &Flat) -> Option<Refused> {
    if flat.leaves.len() > 4096 || !names_leaves(flat) {
        return None;
    }
    match order(alloc, flat) {
        Err(Fail::Refused(refused)) => Some(refused),
        _ => None,
    }
}

#[test]
fn orders(rt: HostRuntime) -> Result<(), AllocError> {
    let alloc = rt.alloc();
    let host = None;
    let rows: [(&[Row], &[u32]); 9] = [
        (&[], &[]),
        (&[(host, host, Kind::Stream, 0, 1)], &[]),
        (&[], &[0, 1, 2]),
        // Three leaves that are declared against their order.
        (
            &[
                (host, Some(2), Kind::Stream, 0, 1),
                (host, host, Kind::Stream, 0, 1),
                (Some(0), host, Kind::Stream, 0, 1),
                (Some(1), Some(0), Kind::Stream, 0, 1),
                (Some(2), Some(1), Kind::Stream, 0, 1),
            ],
            &[2, 1, 0],
        ),
        // A chain of each kind counts.
        (
            &[
                (Some(1), Some(0), Kind::Value, 0, 1),
                (Some(2), Some(1), Kind::Event, 0, 1),
            ],
            &[2, 1, 0],
        ),
        // A delayed chain doesn't.
        (&[(Some(1), Some(0), Kind::Stream, 1, 1)], &[0, 1]),
        (&[(Some(0), Some(0), Kind::Stream, 1, 1)], &[0]),
        // The first leaf that is ready comes next.
        (
            &[
                (Some(3), Some(1), Kind::Stream, 0, 1),
                (Some(0), Some(2), Kind::Stream, 0, 1),
            ],
            &[0, 2, 3, 1],
        ),
        // Two ways from 3 to 0.
        (
            &[
                (Some(3), Some(1), Kind::Stream, 0, 1),
                (Some(3), Some(2), Kind::Stream, 0, 1),
                (Some(1), Some(0), Kind::Stream, 0, 1),
                (Some(2), Some(0), Kind::Stream, 0, 1),
            ],
            &[3, 1, 2, 0],
        ),
    ];
    let paths = ["a", "b", "c", "d"];
    for (chains, want) in rows {
        if want.len() <= 4 {
            let flat = flat_of(alloc, &paths[..want.len()], chains)?;
            assert!(rt; has_order(alloc, &flat, want), "at {want:?}");
        }
    }
    Ok(())
}

// The patch with one leaf `a` that feeds itself: once with a chain to the host that isn't delayed, and once with one
// that is.
#[test]
fn a_leaf_before_itself(rt: HostRuntime) -> Result<(), AllocError> {
    let alloc = rt.alloc();
    for delay in [0, 1] {
        let rows = [
            (None, Some(0), Kind::Stream, 0, 3),
            (Some(0), Some(0), Kind::Stream, 0, 4),
            (Some(0), None, Kind::Stream, delay, 5),
        ];
        let flat = flat_of(alloc, &["a"], &rows)?;
        match refusal_of(alloc, &flat) {
            Some(refused) => {
                assert!(rt; refused.cause == Cause::Cycle);
                assert!(rt; refused.place.line == 4);
                assert!(rt; refused.cycle.len() == 1);
                for path in refused.cycle.as_slice() {
                    assert!(rt; path.as_str() == "a");
                }
            }
            None => assert!(rt; false, "no refusal at {delay}"),
        }
    }
    Ok(())
}

// The leaves 1 and 2 are a cycle; 0 is before it, and 3 behind it.
#[test]
fn a_cycle_of_two(rt: HostRuntime) -> Result<(), AllocError> {
    let alloc = rt.alloc();
    let rows = [
        (Some(0), Some(1), Kind::Stream, 0, 1),
        (Some(1), Some(2), Kind::Stream, 0, 2),
        (Some(2), Some(1), Kind::Event, 0, 3),
        (Some(2), Some(3), Kind::Stream, 0, 4),
    ];
    let flat = flat_of(alloc, &["a", "b", "c[0].d", "e"], &rows)?;
    match refusal_of(alloc, &flat) {
        Some(refused) => {
            let line = refused.place.line;
            assert!(rt; line == 2 || line == 3);
            assert!(rt; refused.cycle.len() == 2);
            for path in refused.cycle.as_slice() {
                assert!(rt; path.as_str() == "b" || path.as_str() == "c[0].d");
            }
        }
        None => assert!(rt; false, "no refusal"),
    }
    Ok(())
}

// As many leaves and connections as a patch may have, each leaf declared before the one that it waits for.
#[test]
fn at_the_limits(rt: HostRuntime) -> Result<(), AllocError> {
    let alloc = rt.alloc();
    let count: u32 = 4096;
    let paths = vec![in alloc; "a"; 4096]?;
    let mut rows = Vec::new(alloc);
    let mut want = Vec::new(alloc);
    for leaf in 0..count - 1 {
        for _ in 0..64 {
            rows.push((Some(leaf + 1), Some(leaf), Kind::Stream, 0, 1))?;
        }
    }
    for leaf in 0..count {
        want.push(count - 1 - leaf)?;
    }
    let flat = flat_of(alloc, &paths, &rows)?;
    assert!(rt; has_order(alloc, &flat, &want));
    Ok(())
}
