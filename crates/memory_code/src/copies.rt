ghost use Rattle.std.specs.Prelude.{◌≡◌, ◌+◌, ◌<◌, ◌≤◌, ◌^◌, ◌++◌, OnOk};
ghost use Rattle.memory_code.specs.Copies.{base_code, offset_of as offset_in, copy_part, copy_code, zero_number, zero_part, zero_code};
ghost use Rattle.memory_code.specs.Fits.{IsAddress};

use crate::address::Address;
use crate::part::Part;
use cm_base::NoMemory;
use wasm_tree::{Code, Instr, MemArg, ValType};

/// A place at an offset from the address on the stack, without a hint at its alignment.
fn at(offset: u32) -> MemArg
    ensures { result ≡ record { align = 0; offset = offset } }
{
    MemArg { align: 0, offset }
}

fn base(address: Address) -> Instr
    requires { IsAddress address }
    ensures { result ≡ base_code address }
{
    match address {
        Address::Behind { local, offset: _ } => Instr::LocalGet(local),
        Address::Fixed(address) => Instr::I32Const(address as i32),
    }
}

fn offset_of(address: Address) -> u32
    ensures { result ≡ offset_in address }
{
    match address {
        Address::Behind { local: _, offset } => offset,
        Address::Fixed(_) => 0,
    }
}

fn push_copy_part(
    code: &mut Code,
    to: Address,
    from: Address,
    width: u32,
    byte: u32,
) -> Result<(), NoMemory>
    requires to { IsAddress to }
    requires from { IsAddress from }
    requires to_fits { offset_in to + byte < 2 ^ 32 }
    requires from_fits { offset_in from + byte < 2 ^ 32 }
    ensures { OnOk result (code.new ≡ code.old ++ copy_part to from width byte) }
{
    let part = Part::of_width(width);
    code.push(base(to))?;
    code.push(base(from))?;
    code.push(Instr::Load(part.load(), at(offset_of(from) + byte)))?;
    code.push(Instr::Store(part.store(), at(offset_of(to) + byte)))?;
    Ok(())
}

/// Appends code that copies `width` bytes, a multiple of 4, from one place in memory to another that is apart from it, or
/// the same. It goes part by part, so it is for widths of a few hundred bytes.
pub fn push_copy(code: &mut Code, to: Address, from: Address, width: u32) -> Result<(), NoMemory>
    requires to { IsAddress to }
    requires from { IsAddress from }
    requires to_fits { offset_in to + width < 2 ^ 32 }
    requires from_fits { offset_in from + width < 2 ^ 32 }
    ensures { OnOk result (code.new ≡ code.old ++ copy_code to from width) }
{
    let size = Part::of_width(width).size();
    for part in 0..width / size {
        push_copy_part(code, to, from, width, part * size)?;
    }
    Ok(())
}

fn zero(ty: ValType) -> Instr
    ensures { result ≡ zero_number ty }
{
    match ty {
        ValType::I32 => Instr::I32Const(0),
        ValType::I64 => Instr::I64Const(0),
    }
}

fn push_zero_part(code: &mut Code, to: Address, width: u32, byte: u32) -> Result<(), NoMemory>
    requires to { IsAddress to }
    requires to_fits { offset_in to + byte < 2 ^ 32 }
    ensures { OnOk result (code.new ≡ code.old ++ zero_part to width byte) }
{
    let part = Part::of_width(width);
    code.push(base(to))?;
    code.push(zero(part.value_type()))?;
    code.push(Instr::Store(part.store(), at(offset_of(to) + byte)))?;
    Ok(())
}

/// Appends code that writes zeros to `width` bytes, a multiple of 4.
pub fn push_zero(code: &mut Code, to: Address, width: u32) -> Result<(), NoMemory>
    requires to { IsAddress to }
    requires to_fits { offset_in to + width < 2 ^ 32 }
    ensures { OnOk result (code.new ≡ code.old ++ zero_code to width) }
{
    let size = Part::of_width(width).size();
    for part in 0..width / size {
        push_zero_part(code, to, width, part * size)?;
    }
    Ok(())
}
