use crate::{Section, Wanted, offset_of, read_section};
use cm_base::{Flow, HostEnd, Kind, Range, Scalar};
use std::process::Abort;
use wasm_tree::Interface;

// Interface 2 with latency 3 and blocks of 256 frames (80 02): a stream input `in` of one int32 at 4096 (80 20), a value
// input `gain` of one int32 from -1 to 10 that starts with 3, and an event output `e` of two truth values and one of 5
// wrapping numbers.
const BLOCKS: &[u8] = &[
    2, 3, 0x80, 0x02, 3, //
    0, 0, 2, b'i', b'n', 0x80, 0x20, 1, 1, 0, 0, //
    0, 1, 4, b'g', b'a', b'i', b'n', 8, 1, 1, 0, 1, 0x7F, 10, 3, //
    1, 2, 1, b'e', 12, 2, 2, 2, 1, 3, 5, 0,
];

/// What the bytes say.
fn read(rt: &impl Abort, alloc: std::alloc::Global, bytes: &[u8]) -> Option<Section> {
    match read_section(alloc, bytes) {
        Ok(read) => read,
        Err(_no_memory) => {
            assert!(rt; false, "out of memory");
            None
        }
    }
}

fn is_end(end: &HostEnd, flow: Flow, kind: Kind, name: &str, shape: &[Scalar]) -> bool {
    end.flow == flow
        && end.kind == kind
        && end.name.as_str() == name
        && end.shape.as_slice() == shape
}

#[test]
fn endpoints_of_blocks(rt: HostRuntime) {
    match read(&rt, rt.alloc(), BLOCKS) {
        None => assert!(&rt; false, "refused"),
        Some(section) => {
            assert!(&rt; section.interface == Interface::Blocks(256));
            assert!(&rt; section.latency == 3);
            assert!(&rt; section.addresses.as_slice() == [4096, 8, 12].as_slice());
            let host = section.host.as_slice();
            assert!(&rt; host.len() == 3);
            assert!(&rt; is_end(&host[0], Flow::Input, Kind::Stream, "in", &[Scalar::Int32]));
            assert!(&rt; host[0].parameter.is_none());
            assert!(&rt; is_end(&host[1], Flow::Input, Kind::Value, "gain", &[Scalar::Int32]));
            assert!(&rt;
                host[1].parameter
                    == Some(Range {
                        min: -1,
                        max: 10,
                        init: 3
                    })
            );
            let shape = [Scalar::Bool, Scalar::Bool, Scalar::Wrap(5)];
            assert!(&rt; is_end(&host[2], Flow::Output, Kind::Event, "e", &shape));
        }
    }
}

#[test]
fn each_shorter_length_is_refused(rt: HostRuntime) {
    for length in 0..BLOCKS.len() {
        let (front, _rest) = BLOCKS.split_at(length);
        assert!(&rt; read(&rt, rt.alloc(), front).is_none(), "{length}");
    }
}

#[test]
fn what_is_no_section(rt: HostRuntime) {
    let rows: [(&str, &[u8]); 11] = [
        ("interface 0", &[0, 0, 0]),
        ("interface 3", &[3, 0, 1, 0]),
        ("a byte behind", &[1, 0, 0, 0]),
        ("a flow of 2", &[1, 0, 1, 2, 0, 1, b'a', 0, 0, 0]),
        ("a kind of 3", &[1, 0, 1, 0, 3, 1, b'a', 0, 0, 0]),
        ("a name that is no text", &[1, 0, 1, 0, 0, 1, 0xFF, 0, 0, 0]),
        ("a run of none", &[1, 0, 1, 0, 0, 1, b'a', 0, 1, 0, 0, 0]),
        (
            "a scalar of kind 5",
            &[1, 0, 1, 0, 0, 1, b'a', 0, 1, 1, 5, 0],
        ),
        ("a parameter of 2", &[1, 0, 1, 0, 0, 1, b'a', 0, 0, 2]),
        // 1,048,577 is 81 80 40.
        (
            "too many scalars",
            &[1, 0, 1, 0, 0, 1, b'a', 0, 1, 0x81, 0x80, 0x40, 0, 0],
        ),
        (
            "too many in all",
            &[
                1, 0, 2, 0, 0, 1, b'a', 0, 1, 0x80, 0x80, 0x40, 0, 0, //
                0, 0, 1, b'b', 0, 1, 1, 0, 0,
            ],
        ),
    ];
    for (about, bytes) in rows {
        assert!(&rt; read(&rt, rt.alloc(), bytes).is_none(), "{about}");
    }
}

#[test]
fn smallest_and_longest(rt: HostRuntime) {
    match read(&rt, rt.alloc(), &[1, 0, 0]) {
        None => assert!(&rt; false, "refused"),
        Some(section) => {
            assert!(&rt; section.interface == Interface::Single);
            assert!(&rt; section.latency == 0 && section.host.is_empty());
        }
    }
    // 1,048,576 scalars of 64 bits in one run, behind a number that has one byte too many but is spelled.
    let bytes = &[
        1, 0, 0x81, 0x00, 1, 0, 1, b'a', 0, 1, 0x80, 0x80, 0x40, 1, 0,
    ];
    match read(&rt, rt.alloc(), bytes) {
        None => assert!(&rt; false, "refused"),
        Some(section) => {
            let host = section.host.as_slice();
            assert!(&rt; host.len() == 1 && host[0].shape.len() == 1_048_576);
            assert!(&rt; host[0].flow == Flow::Output && host[0].kind == Kind::Stream);
        }
    }
}

// A custom section `x` at 8, one type at 12, a section `cmajor` at 18, an empty list of functions spelled with a longer size
// at 28, and another section `cmajor` at 32.
const SECTIONS: &[u8] = &[
    0x00, 0x61, 0x73, 0x6D, 1, 0, 0, 0, //
    0, 2, 1, b'x', //
    1, 4, 1, 0x60, 0, 0, //
    0, 8, 6, b'c', b'm', b'a', b'j', b'o', b'r', 9, //
    3, 0x81, 0x00, 0, //
    0, 7, 6, b'c', b'm', b'a', b'j', b'o', b'r',
];

#[test]
fn offsets_of_sections(rt: HostRuntime) {
    let rows = [
        (Wanted::Section(1), 0, 12),
        (Wanted::Section(3), 0, 28),
        (Wanted::Section(0), 0, 8),
        (Wanted::Section(2), 0, 41),
        (Wanted::Cmajor, 0, 18),
        (Wanted::Cmajor, 1, 32),
        (Wanted::Cmajor, 2, 41),
    ];
    for (wanted, others, offset) in rows {
        match offset_of(SECTIONS, wanted, others) {
            Ok(found) => assert!(&rt; found == offset, "{wanted:?} {others}"),
            Err(_no_memory) => assert!(&rt; false, "{wanted:?}"),
        }
    }
    for length in 0..9 {
        let (front, _rest) = SECTIONS.split_at(length);
        match offset_of(front, Wanted::Section(1), 0) {
            Ok(found) => assert!(&rt; found == length as u64, "{length}"),
            Err(_no_memory) => assert!(&rt; false, "{length}"),
        }
    }
}
