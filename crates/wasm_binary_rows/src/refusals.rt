use crate::modules::{SMALL, after_header};
use std::alloc::{AllocError, Global};
use std::test::*;
use wasm_reader::read_module;
use wasm_tree::{ModuleFail, ModuleRule};

fn refusal(alloc: Global, bytes: &[u8]) -> Option<(u64, ModuleRule)> {
    match read_module(alloc, bytes) {
        Err(ModuleFail::Refused(refused)) => Some((refused.offset, refused.rule)),
        _ => None,
    }
}

#[test]
fn each_shorter_length(rt: HostRuntime) {
    for length in 0..SMALL.len() {
        // where a section ends and no function lacks its code
        let whole = [8, 19, 29, 44, 98].contains(&length);
        let refused = refusal(rt.alloc(), &SMALL[..length]);
        assert_eq!(rt; refused.is_none(), whole, "{length}");
    }
}

#[test]
fn other_headers(rt: HostRuntime) {
    let rows: [(&[u8], u64); 3] = [
        (&[], 0),
        (&[0x00, 0x61, 0x73], 3),
        (&[0x00, 0x61, 0x73, 0x6D, 0x02, 0x00, 0x00, 0x00], 4),
    ];
    for (bytes, offset) in rows {
        let want = Some((offset, ModuleRule::Header));
        assert_eq!(rt; refusal(rt.alloc(), bytes), want, "{bytes:?}");
    }
}

#[test]
fn refusals(rt: HostRuntime) -> Result<(), Fail> {
    let alloc = rt.alloc();
    let rows: [(&[u8], u64, ModuleRule); 18] = [
        // a count of elements that are missing
        (
            &[0x01, 0x05, 0xff, 0xff, 0xff, 0xff, 0x0f],
            15,
            ModuleRule::Size,
        ),
        // a size of six bytes
        (
            &[0x00, 0x89, 0x80, 0x80, 0x80, 0x80, 0x00],
            9,
            ModuleRule::Number,
        ),
        // a size of 33 bits
        (&[0x01, 0x80, 0x80, 0x80, 0x80, 0x10], 9, ModuleRule::Number),
        // types after imports
        (
            &[0x02, 0x01, 0x00, 0x01, 0x01, 0x00],
            11,
            ModuleRule::Section,
        ),
        // types twice
        (
            &[0x01, 0x01, 0x00, 0x01, 0x01, 0x00],
            11,
            ModuleRule::Section,
        ),
        // a byte too many in a section
        (&[0x01, 0x02, 0x00, 0x00], 11, ModuleRule::Size),
        // a size past the end
        (&[0x01, 0x03, 0x00], 11, ModuleRule::Size),
        // no function type
        (&[0x01, 0x02, 0x01, 0x61], 11, ModuleRule::Opcode),
        // a parameter of f32
        (
            &[0x01, 0x04, 0x01, 0x60, 0x01, 0x7d],
            13,
            ModuleRule::Opcode,
        ),
        // a name that is no UTF-8
        (&[0x00, 0x03, 0x02, 0x61, 0xff], 12, ModuleRule::Text),
        // a name past its section
        (&[0x00, 0x03, 0x05, 0x61, 0x62], 13, ModuleRule::Size),
        // a global that is no constant
        (
            &[0x06, 0x06, 0x01, 0x7f, 0x00, 0x23, 0x00, 0x0b],
            13,
            ModuleRule::Opcode,
        ),
        // a constant of 33 bits
        (
            &[
                0x06, 0x09, 0x01, 0x7f, 0x00, 0x41, 0x80, 0x80, 0x80, 0x80, 0x08, 0x0b,
            ],
            14,
            ModuleRule::Number,
        ),
        // a function without code
        (&[0x03, 0x02, 0x01, 0x00], 12, ModuleRule::Size),
        // an else in a block
        (
            &[0x0a, 0x07, 0x01, 0x05, 0x00, 0x02, 0x40, 0x05, 0x0b],
            15,
            ModuleRule::Opcode,
        ),
        // 65,536 locals and one more
        (
            &[
                0x0a, 0x0a, 0x01, 0x08, 0x02, 0x80, 0x80, 0x04, 0x7f, 0x01, 0x7e, 0x0b,
            ],
            17,
            ModuleRule::Limit,
        ),
        // as many locals as a number can say, of f32
        (
            &[
                0x0a, 0x0a, 0x01, 0x08, 0x01, 0xff, 0xff, 0xff, 0xff, 0x0f, 0x7d, 0x0b,
            ],
            13,
            ModuleRule::Limit,
        ),
        // another byte behind memory.size
        (
            &[0x0a, 0x06, 0x01, 0x04, 0x00, 0x3f, 0x01, 0x0b],
            14,
            ModuleRule::Opcode,
        ),
    ];
    for (sections, offset, rule) in rows {
        let bytes = after_header(alloc, sections)?;
        let refused = refusal(alloc, &bytes);
        assert_eq!(rt; refused, Some((offset, rule)), "{sections:?}");
    }
    Ok(())
}

#[test]
fn each_id_outside_the_subset(rt: HostRuntime) -> Result<(), Fail> {
    for id in 0..=u8::MAX {
        let bytes = after_header(rt.alloc(), &[id, 0x01, 0x00])?;
        let want = match id {
            0..=3 | 5..=7 | 10..=11 => None,
            _ => Some((8, ModuleRule::Section)),
        };
        assert_eq!(rt; refusal(rt.alloc(), &bytes), want, "{id}");
    }
    Ok(())
}

/// A module that begins so after the header, and then opens and ends this many blocks inside one another.
fn nested(alloc: Global, start: &[u8], depth: u32) -> Result<Vec<u8>, AllocError> {
    let mut bytes = after_header(alloc, start)?;
    for _ in 0..depth {
        bytes.extend_from_slice(&[0x02, 0x40])?;
    }
    for _ in 0..depth {
        bytes.push(0x0b)?;
    }
    bytes.push(0x0b)?;
    Ok(bytes)
}

#[test]
fn as_many_locals_and_blocks_as_may_be(rt: HostRuntime) -> Result<(), Fail> {
    let locals = [
        0x03, 0x02, 0x01, 0x00, 0x0a, 0x08, 0x01, 0x06, 0x01, 0x80, 0x80, 0x04, 0x7f,
    ];
    let bytes = nested(rt.alloc(), &locals, 0)?;
    assert!(rt; read_module(rt.alloc(), &bytes).is_ok());
    let deepest = [
        0x03, 0x02, 0x01, 0x00, 0x0a, 0x85, 0x60, 0x01, 0x82, 0x60, 0x00,
    ];
    let bytes = nested(rt.alloc(), &deepest, 4096)?;
    assert!(rt; read_module(rt.alloc(), &bytes).is_ok());
    let too_deep = [
        0x03, 0x02, 0x01, 0x00, 0x0a, 0x88, 0x60, 0x01, 0x85, 0x60, 0x00,
    ];
    let bytes = nested(rt.alloc(), &too_deep, 4097)?;
    let refused = refusal(rt.alloc(), &bytes);
    assert_eq!(rt; refused, Some((8211, ModuleRule::Limit)));
    Ok(())
}
