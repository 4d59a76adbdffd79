ghost use Rattle.std.specs.Prelude.{◌≡◌, ◌≢◌, ◌<◌, [], length, IfOk, IfSome, Some, None};
ghost use Rattle.wasm_tree.specs.Host.{HasImport};
ghost use Rattle.wasm_tree.specs.Valid.{AreFunctionsIndexed};
ghost use Rattle.wasm_valid.specs.Bodies.{context_of, if_step};
ghost use Rattle.wasm_valid.specs.Checking.{acted, action, after_one, after_all, at_begin, labels_of, Stays};
ghost use Rattle.wasm_valid.specs.Ends.{ends_of};
ghost use Rattle.wasm_valid.specs.Frames.{changed, Tells};

use crate::acts::{
    branch, branch_if, branch_table, call, convert, ends_with, get, get_global, load, set,
    set_global, store, tee,
};
use crate::locals::local_type;
use crate::operands::Operands;
use crate::scope::function_type;
use std::alloc::AllocError;
use wasm_tree::{FuncType, Instr, LocalRun, Module, ValType};

/// Where code stands: the module, the function's type and what it gives, and the runs of its locals with their ends.
#[derive(Clone, Copy)]
pub struct Scope<'a> {
    pub module: &'a Module,
    pub ty: &'a FuncType,
    pub gives: Option<ValType>,
    pub runs: &'a [LocalRun],
    pub ends: &'a [u64],
}

/// Follows a plain instruction, and says whether it may stand there.
#[tactic(auto, using(crate::proofs::ActLemmas::wrong, crate::proofs::ActLemmas::takes_as, crate::proofs::ActLemmas::drops_as, crate::proofs::ActLemmas::selects_as), unfolding(crate::specs::Checking::action))]
fn plain(operands: &mut Operands, scope: &Scope<'_>, instr: &Instr) -> Result<bool, AllocError>
    requires open { 0 < length operands.old }
    requires import { HasImport scope.now.«module».now }
    requires indexed { AreFunctionsIndexed scope.now.«module».now }
    requires ends { scope.now.ends.now ≡ ends_of 0 scope.now.runs.now }
    ensures { IfOk result (λ told. Tells told (changed (acted (action (context_of scope.now.«module».now scope.now.ty.now scope.now.runs.now) scope.now.gives (labels_of operands.old) instr.now)) operands.old) operands.new) }
{
    match instr {
        Instr::Unreachable => Ok(ends_with(operands, None)),
        Instr::Nop => operands.takes(&[], None),
        Instr::Br(label) => Ok(branch(operands, *label)),
        Instr::BrIf(label) => branch_if(operands, *label),
        Instr::BrTable(table) => Ok(branch_table(operands, table.get())),
        Instr::Return => Ok(ends_with(operands, scope.gives)),
        Instr::Call(function) => call(operands, function_type(scope.module, *function)),
        Instr::Drop => Ok(operands.drops()),
        Instr::Select => operands.selects(),
        Instr::LocalGet(local) => get(
            operands,
            local_type(scope.ty.params.as_slice(), scope.runs, scope.ends, *local),
        ),
        Instr::LocalSet(local) => set(
            operands,
            local_type(scope.ty.params.as_slice(), scope.runs, scope.ends, *local),
        ),
        Instr::LocalTee(local) => tee(
            operands,
            local_type(scope.ty.params.as_slice(), scope.runs, scope.ends, *local),
        ),
        Instr::GlobalGet(global) => get_global(
            operands,
            scope.module.globals.get(*global as usize),
        ),
        Instr::GlobalSet(global) => set_global(
            operands,
            scope.module.globals.get(*global as usize),
        ),
        Instr::Load(op, place) => load(operands, *op, *place),
        Instr::Store(op, place) => store(operands, *op, *place),
        Instr::MemorySize => operands.takes(&[], Some(ValType::I32)),
        Instr::I32Const(_) => operands.takes(&[], Some(ValType::I32)),
        Instr::I64Const(_) => operands.takes(&[], Some(ValType::I64)),
        Instr::Test(ty) => operands.takes(&[*ty], Some(ValType::I32)),
        Instr::Compare(ty, _) => operands.takes(&[*ty, *ty], Some(ValType::I32)),
        Instr::Unary(ty, _) => operands.takes(&[*ty], Some(*ty)),
        Instr::Binary(ty, _) => operands.takes(&[*ty, *ty], Some(*ty)),
        Instr::Convert(op) => convert(operands, *op),
        Instr::Block(_) => Ok(false),
        Instr::Loop(_) => Ok(false),
        Instr::If(_) => Ok(false),
        Instr::Else => Ok(false),
        Instr::End => Ok(false),
    }
}

/// Opens an arm of an `if`.
#[tactic(auto, using(crate::proofs::BodyLemmas::if_opens, crate::proofs::BodyLemmas::if_lacks))]
fn open_arm(operands: &mut Operands, ty: Option<ValType>) -> Result<bool, AllocError>
    requires { 0 < length operands.old }
    ensures { IfOk result (λ told. Tells told (if_step ty operands.old) operands.new) }
{
    if !operands.takes(&[ValType::I32], None)? {
        return Ok(false);
    }
    operands.open(ty, ty, true)?;
    Ok(true)
}

/// Follows an instruction, and says whether it may stand there.
#[tactic(auto, using(crate::proofs::BodyLemmas::block_opens, crate::proofs::BodyLemmas::loop_opens, crate::proofs::BodyLemmas::if_as, crate::proofs::BodyLemmas::second_as, crate::proofs::BodyLemmas::close_as, crate::proofs::BodyLemmas::plain_as))]
fn follow(operands: &mut Operands, scope: &Scope<'_>, instr: &Instr) -> Result<bool, AllocError>
    requires open { 0 < length operands.old }
    requires import { HasImport scope.now.«module».now }
    requires indexed { AreFunctionsIndexed scope.now.«module».now }
    requires ends { scope.now.ends.now ≡ ends_of 0 scope.now.runs.now }
    ensures { IfOk result (λ told. Tells told (after_one (context_of scope.now.«module».now scope.now.ty.now scope.now.runs.now) scope.now.gives operands.old instr.now) operands.new) }
{
    match instr {
        Instr::Block(ty) => {
            operands.open(*ty, *ty, false)?;
            Ok(true)
        }
        Instr::Loop(ty) => {
            operands.open(None, *ty, false)?;
            Ok(true)
        }
        Instr::If(ty) => open_arm(operands, *ty),
        Instr::Else => Ok(operands.second_arm()),
        Instr::End => operands.close(),
        _ => plain(operands, scope, instr),
    }
}

/// What a function holds at most: operands, and open sequences.
#[derive(Clone, Copy, Debug, PartialEq, Eq)]
pub struct Need {
    pub cells: u64,
    pub marks: u64,
}

/// Checks the code of a function, and tells what it holds at most.
#[tactic(auto, using(crate::proofs::PassLemmas::goes_on, crate::proofs::PassLemmas::fails, crate::proofs::PassLemmas::ended_early, crate::proofs::PassLemmas::ends_with, crate::proofs::PassLemmas::stays_on, crate::proofs::PassLemmas::stays_first, crate::proofs::PassLemmas::stays_last))]
pub fn checked(
    operands: &mut Operands,
    scope: &Scope<'_>,
    code: &[Instr],
) -> Result<Option<Need>, AllocError>
    requires import { HasImport scope.now.«module».now }
    requires indexed { AreFunctionsIndexed scope.now.«module».now }
    requires ends { scope.now.ends.now ≡ ends_of 0 scope.now.runs.now }
    ensures accepted { IfOk result (λ need. IfSome need (λ need. after_all (context_of scope.now.«module».now scope.now.ty.now scope.now.runs.now) scope.now.gives (at_begin scope.now.gives) code.now ≡ Some [])) }
    ensures bounded { IfOk result (λ need. IfSome need (λ need. Stays (context_of scope.now.«module».now scope.now.ty.now scope.now.runs.now) scope.now.gives need.cells need.marks (at_begin scope.now.gives) code.now)) }
    ensures refused { IfOk result (λ need. need ≡ None → after_all (context_of scope.now.«module».now scope.now.ty.now scope.now.runs.now) scope.now.gives (at_begin scope.now.gives) code.now ≢ Some []) }
{
    operands.begin(scope.gives);
    let mut cells = 0;
    let mut marks = 1;
    for instr in code {
        if operands.is_ended() {
            return Ok(None);
        }
        if !follow(operands, scope, instr)? {
            return Ok(None);
        }
        cells = cells.max(operands.height() as u64);
        marks = marks.max(operands.depth() as u64);
    }
    if operands.is_ended() {
        return Ok(Some(Need { cells, marks }));
    }
    Ok(None)
}
