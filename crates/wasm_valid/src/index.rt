ghost use Rattle.std.specs.Prelude.{◌≡◌, ◌↔◌, ◌<◌, ◌^◌, ℕ, List, Bool, length, take, slice_get, Some, IsTrue};
ghost use Rattle.wasm_tree.specs.declared.instr.Instr.{Instr as TheInstr};
ghost use Rattle.std.specs.List.{AllByRecursion};
ghost use Rattle.wasm_tree.specs.Control.{IsOpen, IsClosed};
ghost use Rattle.wasm_tree.specs.Numbers.{IsThere};
ghost use Rattle.wasm_valid.specs.Indexed.{counts_of, open_after as the_open_after};

use wasm_tree::Instr;

/// How many there are of what code may name. There is one memory.
#[derive(Clone, Copy, Debug)]
pub struct Space {
    pub functions: u64,
    pub locals: u64,
    pub globals: u64,
}

/// Whether the label is there, where so many sequences are open.
fn are_labels_there(labels: &[u32], held: u64) -> bool
    ensures { IsTrue result ↔ AllByRecursion (λ label. label < held) labels.now }
{
    labels.iter().all(|label| (*label as u64) < held)
}

/// Whether what the instruction names is there, where so many sequences are open.
fn is_there(space: Space, held: u64, instr: &Instr) -> bool
    ensures { IsTrue result ↔ IsThere (counts_of space held) instr.now }
{
    match instr {
        Instr::Br(label) => (*label as u64) < held,
        Instr::BrIf(label) => (*label as u64) < held,
        Instr::BrTable(table) => {
            let table = table.get();
            are_labels_there(table.labels.as_slice(), held) && (table.other as u64) < held
        }
        Instr::Call(function) => (*function as u64) < space.functions,
        Instr::LocalGet(local) => (*local as u64) < space.locals,
        Instr::LocalSet(local) => (*local as u64) < space.locals,
        Instr::LocalTee(local) => (*local as u64) < space.locals,
        Instr::GlobalGet(global) => (*global as u64) < space.globals,
        Instr::GlobalSet(global) => (*global as u64) < space.globals,
        _ => true,
    }
}

/// How many sequences are open after an instruction, where so many are open before it.
fn open_after(held: u64, instr: &Instr) -> u64
    requires { held < 2 ^ 63 }
    ensures { result ≡ the_open_after held instr.now }
{
    match instr {
        Instr::Block(_) => held + 1,
        Instr::Loop(_) => held + 1,
        Instr::If(_) => held + 1,
        Instr::End => held.saturating_sub(1),
        _ => held,
    }
}

/// Whether what the code names is there, where each instruction stands.
pub fn is_indexed(space: Space, code: &[Instr]) -> bool
    requires { IsClosed code.now }
    ensures { IsTrue result ↔ ((place : ℕ) (i : TheInstr) (arms : List Bool) → slice_get code.now place ≡ Some i → IsOpen (take place code.now) arms → IsThere (counts_of space (length arms)) i) }
{
    let mut held = 1;
    for instr in code {
        if !is_there(space, held, instr) {
            return false;
        }
        held = open_after(held, instr);
    }
    true
}
