use crate::modules::{after_header, empty, written};
use cm_base::NoMemory;
use std::alloc::Global;
use std::test::*;
use wasm_reader::read_module;
use wasm_tree::{GlobalVar, Instr, Limits, Module, ValType};

/// A module with one memory, whose least number of pages is this.
fn memory_of(alloc: Global, min: u32) -> Result<Module, NoMemory> {
    let mut module = empty(alloc);
    module.memory.push(Limits { min, max: None })?;
    Ok(module)
}

#[test]
fn unsigned_numbers(rt: HostRuntime) -> Result<(), Fail> {
    let alloc = rt.alloc();
    let table: [(u32, &[u8]); 5] = [
        (0, &[0x05, 0x03, 0x01, 0x00, 0x00]),
        (127, &[0x05, 0x03, 0x01, 0x00, 0x7F]),
        (128, &[0x05, 0x04, 0x01, 0x00, 0x80, 0x01]),
        (44100, &[0x05, 0x05, 0x01, 0x00, 0xC4, 0xD8, 0x02]),
        (
            u32::MAX,
            &[0x05, 0x07, 0x01, 0x00, 0xFF, 0xFF, 0xFF, 0xFF, 0x0F],
        ),
    ];
    for (number, section) in table {
        let want = after_header(alloc, section)?;
        let module = memory_of(alloc, number).ok().ok_or("there is memory")?;
        let bytes = written(alloc, &module).ok().ok_or("there is memory")?;
        let bytes = bytes.ok_or("it is writable")?;
        assert_eq!(rt; bytes.as_slice(), want.as_slice(), "at {number}");
        let read = read_module(alloc, &want).ok().ok_or("it is a module")?;
        let memory = read.memory.get(0).ok_or("it has a memory")?;
        assert_eq!(rt; memory.min, number);
    }
    Ok(())
}

/// A module with one global, whose first value is this.
fn global_of(alloc: Global, value: i64) -> Result<Module, NoMemory> {
    let mut module = empty(alloc);
    module.globals.push(GlobalVar {
        ty: ValType::I64,
        mutable: false,
        value: Instr::I64Const(value),
    })?;
    Ok(module)
}

#[test]
fn signed_numbers(rt: HostRuntime) -> Result<(), Fail> {
    let alloc = rt.alloc();
    let table: [(i64, &[u8]); 8] = [
        (-1, &[0x06, 0x06, 0x01, 0x7E, 0x00, 0x42, 0x7F, 0x0B]),
        (63, &[0x06, 0x06, 0x01, 0x7E, 0x00, 0x42, 0x3F, 0x0B]),
        (64, &[0x06, 0x07, 0x01, 0x7E, 0x00, 0x42, 0xC0, 0x00, 0x0B]),
        (-64, &[0x06, 0x06, 0x01, 0x7E, 0x00, 0x42, 0x40, 0x0B]),
        (-65, &[0x06, 0x07, 0x01, 0x7E, 0x00, 0x42, 0xBF, 0x7F, 0x0B]),
        (
            -2_147_483_648,
            &[
                0x06, 0x0A, 0x01, 0x7E, 0x00, 0x42, 0x80, 0x80, 0x80, 0x80, 0x78, 0x0B,
            ],
        ),
        (
            i64::MAX,
            &[
                0x06, 0x0F, 0x01, 0x7E, 0x00, 0x42, 0xFF, 0xFF, 0xFF, 0xFF, 0xFF, 0xFF, 0xFF, 0xFF,
                0xFF, 0x00, 0x0B,
            ],
        ),
        (
            i64::MIN,
            &[
                0x06, 0x0F, 0x01, 0x7E, 0x00, 0x42, 0x80, 0x80, 0x80, 0x80, 0x80, 0x80, 0x80, 0x80,
                0x80, 0x7F, 0x0B,
            ],
        ),
    ];
    for (number, section) in table {
        let want = after_header(alloc, section)?;
        let module = global_of(alloc, number).ok().ok_or("there is memory")?;
        let bytes = written(alloc, &module).ok().ok_or("there is memory")?;
        let bytes = bytes.ok_or("it is writable")?;
        assert_eq!(rt; bytes.as_slice(), want.as_slice(), "at {number}");
        let read = read_module(alloc, &want).ok().ok_or("it is a module")?;
        let global = read.globals.get(0).ok_or("it has a global")?;
        assert!(rt; matches!(&global.value, Instr::I64Const(value) if *value == number));
    }
    Ok(())
}
