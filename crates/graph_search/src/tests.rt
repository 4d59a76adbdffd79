use crate::{Edge, SearchFail, are_within, order, path_counts, ranks};
use std::alloc::{AllocError, Global};

fn edges_of(alloc: Global, pairs: &[(u32, u32)]) -> Result<Vec<Edge>, AllocError> {
    let mut edges = Vec::new(alloc);
    for (from, to) in pairs {
        edges.push(Edge {
            from: *from,
            to: *to,
        })?;
    }
    Ok(edges)
}

#[test]
fn orders(rt: HostRuntime) -> Result<(), AllocError> {
    let alloc = rt.alloc();
    let rows: [(&[(u32, u32)], &[u32]); 9] = [
        (&[], &[]),
        (&[], &[0]),
        (&[], &[0, 1, 2]),
        (&[(1, 0), (1, 0)], &[1, 0]),
        (&[(0, 1), (0, 2), (1, 3), (2, 3)], &[0, 1, 2, 3]),
        (&[(3, 1), (3, 2), (1, 0), (2, 0)], &[3, 1, 2, 0]),
        (&[(3, 0)], &[1, 2, 3, 0]),
        (&[(2, 0), (0, 1)], &[2, 0, 1, 3]),
        (&[(3, 1), (0, 2)], &[0, 2, 3, 1]),
    ];
    for (pairs, want) in rows {
        let count = want.len() as u32;
        let edges = edges_of(alloc, pairs)?;
        assert!(rt; are_within(count, &edges));
        match order(alloc, count, &edges) {
            Ok(found) => assert!(rt; found.as_slice() == want, "at {pairs:?}"),
            Err(_) => assert!(rt; false, "no order at {pairs:?}"),
        }
    }
    Ok(())
}

// All cycles of a row have one length.
#[test]
fn cycles(rt: HostRuntime) -> Result<(), AllocError> {
    let alloc = rt.alloc();
    let rows: [(u32, &[(u32, u32)], usize); 4] = [
        (1, &[(0, 0)], 1),
        (3, &[(0, 1), (1, 2), (2, 2)], 1),
        (4, &[(0, 1), (1, 0), (3, 2), (2, 3)], 2),
        (6, &[(5, 1), (1, 2), (2, 3), (3, 1), (3, 4), (5, 4)], 3),
    ];
    for (count, pairs, want) in rows {
        let edges = edges_of(alloc, pairs)?;
        assert!(rt; are_within(count, &edges));
        let length = match order(alloc, count, &edges) {
            Err(SearchFail::Cycle(found)) => found.len(),
            Err(SearchFail::NoMemory) => 0,
            Ok(_found) => 0,
        };
        assert!(rt; length == want, "at {pairs:?}");
    }
    Ok(())
}

#[test]
fn rankings(rt: HostRuntime) -> Result<(), AllocError> {
    let alloc = rt.alloc();
    let rows: [(&[(u32, u32)], &[u32]); 3] = [
        (&[], &[1, 0]),
        (&[(3, 1), (3, 2), (1, 0), (2, 0)], &[0, 2, 1, 3]),
        (&[(2, 0), (0, 1)], &[2, 1, 3, 0]),
    ];
    for (pairs, want) in rows {
        let count = want.len() as u32;
        let edges = edges_of(alloc, pairs)?;
        assert!(rt; are_within(count, &edges));
        match ranks(alloc, count, &edges) {
            Ok(found) => assert!(rt; found.as_slice() == want, "at {pairs:?}"),
            Err(_) => assert!(rt; false, "no ranks at {pairs:?}"),
        }
    }
    Ok(())
}

#[test]
fn counts_of_paths(rt: HostRuntime) -> Result<(), AllocError> {
    let alloc = rt.alloc();
    let diamond: &[(u32, u32)] = &[(0, 1), (0, 2), (1, 3), (2, 3)];
    let last: &[bool] = &[false, false, false, true];
    let rows: [(&[(u32, u32)], &[bool], u64, &[u64]); 6] = [
        (&[], &[], 1, &[]),
        (diamond, last, 9, &[2, 1, 1, 1]),
        (diamond, last, 1, &[1, 1, 1, 1]),
        (diamond, &[false, false, false, false], 9, &[0, 0, 0, 0]),
        (&[(0, 1), (1, 2)], &[false, true, true], 9, &[1, 1, 1]),
        (
            &[(2, 1), (2, 1), (1, 0), (1, 0)],
            &[true, false, false],
            9,
            &[1, 2, 4],
        ),
    ];
    for (pairs, ends, limit, want) in rows {
        let count = ends.len() as u32;
        let edges = edges_of(alloc, pairs)?;
        assert!(rt; are_within(count, &edges));
        match path_counts(alloc, count, &edges, ends, limit) {
            Ok(found) => assert!(rt; found.as_slice() == want, "at {pairs:?}"),
            Err(_) => assert!(rt; false, "no counts at {pairs:?}"),
        }
    }
    Ok(())
}

#[test]
fn ends_within(rt: HostRuntime) -> Result<(), AllocError> {
    let alloc = rt.alloc();
    let edges = edges_of(alloc, &[(0, 1), (2, 0)])?;
    assert!(rt; !are_within(2, &edges) && are_within(3, &edges));
    Ok(())
}
