ghost use Rattle.std.specs.Prelude.{◌≡◌, ◌+◌, ◌*◌, ◌<◌, ◌≤◌, ◌^◌, ◌++◌, OnOk, IfOk, true};
ghost use Rattle.delay_lines.specs.Rings.{IsPlace, size_of};
ghost use Rattle.straight_code.specs.Straight.{AreStraight, NameNoLocals};
ghost use Rattle.memory_code.specs.Parts.{is_wide as is_wide_width, part_size as part_size_of, parts, parts_in};
ghost use Rattle.delay_lines.specs.Code.{cursor_code, offset_code, oldest_part, push_part, next_code, before_last_code, turn_code, oldest_instrs};
ghost use Rattle.delay_lines.specs.Promises.{CopiesOldest, IsTyped, Pushes};

use crate::ring::RingPlace;
use cm_base::NoMemory;
use memory_code::Part;
use std::alloc::Global;
use wasm_tree::{BinaryOp, Code, CompareOp, Instr, LoadOp, MemArg, StoreOp, ValType};

/// A place at an offset from the address on the stack, without a hint at its alignment.
fn at(offset: u32) -> MemArg
    ensures { result ≡ record { align = 0; offset = offset } }
{
    MemArg { align: 0, offset }
}

/// The code that gives the number of the oldest entry.
fn push_cursor(code: &mut Code, ring: &RingPlace) -> Result<(), NoMemory>
    requires { IsPlace ring.now }
    ensures { OnOk result (code.new ≡ code.old ++ cursor_code ring.now) }
{
    code.push(Instr::I32Const(ring.cursor as i32))?;
    code.push(Instr::Load(LoadOp::I32, at(0)))?;
    Ok(())
}

/// The code that gives how far the entry at the cursor is from the first.
fn push_offset(code: &mut Code, ring: &RingPlace) -> Result<(), NoMemory>
    requires { IsPlace ring.now }
    ensures { OnOk result (code.new ≡ code.old ++ offset_code ring.now) }
{
    push_cursor(code, ring)?;
    code.push(Instr::I32Const(ring.width as i32))?;
    code.push(Instr::Binary(ValType::I32, BinaryOp::Mul))?;
    Ok(())
}

/// The code that copies one part of the oldest entry, so many bytes from its start, to an address.
fn push_oldest_part(code: &mut Code, ring: &RingPlace, to: u32, part: u32) -> Result<(), NoMemory>
    requires place { IsPlace ring.now }
    requires to { to < 2 ^ 31 }
    requires part { part ≤ ring.now.width }
    ensures { OnOk result (code.new ≡ code.old ++ oldest_part ring.now to part) }
{
    let part_of = Part::of_width(ring.width);
    code.push(Instr::I32Const(to as i32))?;
    push_offset(code, ring)?;
    code.push(Instr::Load(part_of.load(), at(ring.first + part)))?;
    code.push(Instr::Store(part_of.store(), at(part)))?;
    Ok(())
}

/// The code that copies one part from an address, so many bytes behind it, into the entry at the cursor.
fn push_push_part(code: &mut Code, ring: &RingPlace, from: u32, part: u32) -> Result<(), NoMemory>
    requires place { IsPlace ring.now }
    requires from { from < 2 ^ 31 }
    requires part { part ≤ ring.now.width }
    ensures { OnOk result (code.new ≡ code.old ++ push_part ring.now from part) }
{
    let part_of = Part::of_width(ring.width);
    push_offset(code, ring)?;
    code.push(Instr::I32Const(from as i32))?;
    code.push(Instr::Load(part_of.load(), at(part)))?;
    code.push(Instr::Store(part_of.store(), at(ring.first + part)))?;
    Ok(())
}

/// The code that gives the number behind the cursor.
fn push_next(code: &mut Code, ring: &RingPlace) -> Result<(), NoMemory>
    requires { IsPlace ring.now }
    ensures { OnOk result (code.new ≡ code.old ++ next_code ring.now) }
{
    push_cursor(code, ring)?;
    code.push(Instr::I32Const(1))?;
    code.push(Instr::Binary(ValType::I32, BinaryOp::Add))?;
    Ok(())
}

/// The code that gives 0 where the cursor is at the last entry, and else 1.
fn push_before_last(code: &mut Code, ring: &RingPlace) -> Result<(), NoMemory>
    requires { IsPlace ring.now }
    ensures { OnOk result (code.new ≡ code.old ++ before_last_code ring.now) }
{
    push_cursor(code, ring)?;
    code.push(Instr::I32Const((ring.length - 1) as i32))?;
    code.push(Instr::Compare(ValType::I32, CompareOp::NotEqual))?;
    Ok(())
}

/// The code that moves the cursor on: to the next number, and from the last entry to 0 times that.
fn push_turn(code: &mut Code, ring: &RingPlace) -> Result<(), NoMemory>
    requires { IsPlace ring.now }
    ensures { OnOk result (code.new ≡ code.old ++ turn_code ring.now) }
{
    code.push(Instr::I32Const(ring.cursor as i32))?;
    push_next(code, ring)?;
    push_before_last(code, ring)?;
    code.push(Instr::Binary(ValType::I32, BinaryOp::Mul))?;
    code.push(Instr::Store(StoreOp::I32, at(0)))?;
    Ok(())
}

/// The code that copies all parts of the oldest entry to an address.
fn oldest_parts(alloc: Global, ring: &RingPlace, to: u32) -> Result<Code, NoMemory>
    requires place { IsPlace ring.now }
    requires to { to + ring.now.width < 2 ^ 31 }
    ensures { IfOk result (λ code. code ≡ oldest_instrs ring.now to) }
{
    let size = Part::of_width(ring.width).size();
    let mut code = Code::new(alloc);
    for part in 0..ring.width / size {
        push_oldest_part(&mut code, ring, to, part * size)?;
    }
    Ok(code)
}

/// The code that copies all parts of an entry from an address into the entry at the cursor.
fn push_parts(alloc: Global, ring: &RingPlace, from: u32) -> Result<Code, NoMemory>
    requires place { IsPlace ring.now }
    requires from { from + ring.now.width < 2 ^ 31 }
    ensures { IfOk result (λ code. code ≡ parts (push_part ring.now from) (part_size_of (is_wide_width ring.now.width)) (parts_in ring.now.width)) }
{
    let size = Part::of_width(ring.width).size();
    let mut code = Code::new(alloc);
    for part in 0..ring.width / size {
        push_push_part(&mut code, ring, from, part * size)?;
    }
    Ok(code)
}

/// The code that copies the ring's oldest entry to the address `to` and changes no other byte.
pub fn oldest_code(alloc: Global, ring: &RingPlace, to: u32) -> Result<Code, NoMemory>
    requires place { IsPlace ring.now }
    requires to { to + ring.now.width < 2 ^ 31 }
    ensures copies { IfOk result (CopiesOldest ring.now to) }
    ensures typed { IfOk result IsTyped }
    ensures straight { IfOk result AreStraight }
    ensures no_local { IfOk result NameNoLocals }
{
    let code = oldest_parts(alloc, ring, to)?;
    Ok(code)
}

/// The code that drops the ring's oldest entry, appends the one at the address `from` as the newest, and changes no
/// byte outside the ring.
pub fn push_code(alloc: Global, ring: &RingPlace, from: u32) -> Result<Code, NoMemory>
    requires place { IsPlace ring.now }
    requires from { from + ring.now.width < 2 ^ 31 }
    ensures pushes { IfOk result (Pushes ring.now from) }
    ensures typed { IfOk result IsTyped }
    ensures straight { IfOk result AreStraight }
    ensures no_local { IfOk result NameNoLocals }
{
    let mut code = push_parts(alloc, ring, from)?;
    push_turn(&mut code, ring)?;
    Ok(code)
}
