use crate::{RingPlace, oldest_code, push_code};
use cm_base::NoMemory;
use std::alloc::Global;
use wasm_tree::{Code, Instr};

/// A ring of three entries of 4 bytes behind its cursor.
const WORDS: RingPlace = RingPlace {
    cursor: 100,
    first: 104,
    length: 3,
    width: 4,
};

/// A ring of one entry of 16 bytes that stands in front of its cursor.
const ONE: RingPlace = RingPlace {
    cursor: 96,
    first: 80,
    length: 1,
    width: 16,
};

/// Whether the code's constants and offsets are these, in order.
fn has_numbers(code: &Code, want: &[i64]) -> bool {
    code.as_slice()
        .iter()
        .filter_map(|i| match i {
            Instr::I32Const(value) => Some(i64::from(*value)),
            Instr::Load(_, place) | Instr::Store(_, place) => Some(i64::from(place.offset)),
            _ => None,
        })
        .eq(want.iter().copied())
}

#[test]
fn oldest(rt: HostRuntime) -> Result<(), NoMemory> {
    let alloc: Global = rt.alloc();
    let words = oldest_code(alloc, &WORDS, 16)?;
    assert!(rt; has_numbers(&words, &[16, 100, 0, 4, 104, 0]));
    let one = oldest_code(alloc, &ONE, 16)?;
    assert!(rt; has_numbers(&one, &[16, 96, 0, 16, 80, 0, 16, 96, 0, 16, 88, 8]));
    Ok(())
}

#[test]
fn push(rt: HostRuntime) -> Result<(), NoMemory> {
    let alloc: Global = rt.alloc();
    let words = push_code(alloc, &WORDS, 16)?;
    assert!(rt;
        has_numbers(
            &words,
            &[100, 0, 4, 16, 0, 104, 100, 100, 0, 1, 100, 0, 2, 0]
        )
    );
    let one = push_code(alloc, &ONE, 16)?;
    assert!(rt; one.len() == 2 * 7 + 11);
    Ok(())
}
