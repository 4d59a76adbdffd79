// What reading and validation answer, in the words of rows.

use crate::words::pair_of;
use cm_base::NoMemory;
use std::alloc::{AllocError, Global};
use wasm_reader::read_module;
use wasm_tree::{ModuleFail, ModuleRefused};
use wasm_valid::{Valid, validate};

/// What a host and a runner are told of a valid module.
#[derive(Clone, Copy)]
struct Facts {
    interface: u32,
    block: u32,
    endpoints: usize,
    cells: u64,
    marks: u64,
}

/// The module that the bytes spell, if it is valid.
pub fn valid_of(alloc: Global, bytes: &[u8]) -> Result<Valid, ModuleFail> {
    match read_module(alloc, bytes) {
        Ok(module) => validate(alloc, module, bytes),
        Err(fail) => Err(fail),
    }
}

fn told_of(valid: &Valid) -> Facts {
    Facts {
        interface: valid.interface(),
        block: valid.block(),
        endpoints: valid.host().len(),
        cells: valid.stack(),
        marks: valid.marks(),
    }
}

fn facts_of(alloc: Global, bytes: &[u8]) -> Result<Facts, ModuleFail> {
    match valid_of(alloc, bytes) {
        Ok(valid) => Ok(told_of(&valid)),
        Err(fail) => Err(fail),
    }
}

/// The rule that a module breaks and where, as `refused Typing 71`.
fn refused_line(alloc: Global, refused: ModuleRefused) -> Result<String, AllocError> {
    let (rule, offset) = (refused.rule, refused.offset);
    format!(in alloc; "refused {rule:?} {offset}")
}

fn refusal(alloc: Global, fail: ModuleFail) -> Result<Option<String>, NoMemory> {
    match fail {
        ModuleFail::Refused(refused) => Ok(Some(refused_line(alloc, refused)?)),
        ModuleFail::NoMemory => Err(NoMemory),
    }
}

/// The interface, the block length and the count of endpoints.
fn valid_line(alloc: Global, facts: Facts) -> Result<String, AllocError> {
    let (interface, block, endpoints) = (facts.interface, facts.block, facts.endpoints);
    format!(in alloc; "interface {interface} block {block} endpoints {endpoints}")
}

/// Nothing where the bounds on cells and marks are no less than these, and else the bounds.
fn room_line(
    alloc: Global,
    facts: Facts,
    least_cells: u32,
    least_marks: u32,
) -> Result<String, AllocError> {
    let (cells, marks) = (facts.cells, facts.marks);
    if u64::from(least_cells) <= cells && u64::from(least_marks) <= marks {
        return Ok(String::new(alloc));
    }
    format!(in alloc; "cells {cells} marks {marks}")
}

/// What is told of a valid module, or its refusal.
fn validation(alloc: Global, bytes: &[u8]) -> Result<Option<String>, NoMemory> {
    match facts_of(alloc, bytes) {
        Ok(facts) => Ok(Some(valid_line(alloc, facts)?)),
        Err(fail) => refusal(alloc, fail),
    }
}

/// Whether there is so much room, or the refusal of the module.
fn room(alloc: Global, bytes: &[u8], text: &str) -> Result<Option<String>, NoMemory> {
    let Some((cells, marks)) = pair_of(text) else {
        return Ok(None);
    };
    match facts_of(alloc, bytes) {
        Ok(facts) => Ok(Some(room_line(alloc, facts, cells, marks)?)),
        Err(fail) => refusal(alloc, fail),
    }
}

/// What is answered to a word on the module of these bytes, if it is one.
pub fn module_answer(
    alloc: Global,
    bytes: &[u8],
    word: &str,
    rest: &str,
) -> Result<Option<String>, NoMemory> {
    if word == "validate" {
        return validation(alloc, bytes);
    }
    if word == "room" {
        return room(alloc, bytes, rest);
    }
    Ok(None)
}
