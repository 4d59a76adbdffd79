ghost use Rattle.std.specs.Prelude.{◌≡◌, length};
ghost use Rattle.wasm_reader.specs.Reading.{Gives, opens as opens_at, room_at, next_at, expression_at, body_at, filled_at};

use crate::cursor::Cursor;
use crate::decode::{Decode, Filling, filled};
use crate::fault::{ReadFail, at};
use crate::instr::instr;
use crate::locals::locals;
use cm_base::Items;
use std::alloc::Global;
use wasm_tree::{ControlStack, FuncBody, Instr, ModuleRule};

/// Whether the first byte is the opcode of an instruction that opens a sequence.
#[tactic(auto, unfolding(crate::specs::Reading::opens))]
fn opens(bytes: &[u8]) -> bool
    ensures { result ≡ opens_at bytes.now }
{
    match bytes.first() {
        Some(opcode) => 0x02 <= *opcode && *opcode <= 0x04,
        None => false,
    }
}

/// Refuses to open a sequence inside as many as may be open.
#[tactic(auto, unfolding(crate::specs::Reading::room_at))]
fn room(control: &ControlStack, cursor: &Cursor<'_>) -> Result<(), ReadFail>
    ensures { Gives (λ _. tt) result (room_at control.now cursor.now) }
{
    if control.is_full() && opens(cursor.rest()) {
        return Err(at(ModuleRule::Limit, cursor.left()));
    }
    Ok(())
}

/// The next instruction, which isn't too deep and may stand there.
#[tactic(auto, unfolding(crate::specs::Reading::next_at))]
fn next(
    alloc: Global,
    control: &mut ControlStack,
    cursor: &mut Cursor<'_>,
) -> Result<Instr, ReadFail>
    ensures { Gives (λ i. ((i, control.new), cursor.new)) result (next_at control.old cursor.old) }
{
    room(control, cursor)?;
    let start = cursor.left();
    let instr = instr(alloc, cursor)?;
    if control.follow(&instr) {
        Ok(instr)
    } else {
        Err(at(ModuleRule::Opcode, start))
    }
}

/// The code of a function, up to its own `end`. Each instruction takes a byte at least.
pub fn expression(alloc: Global, cursor: &mut Cursor<'_>) -> Result<Items<Instr>, ReadFail>
    ensures { Gives (λ x. (x, cursor.new)) result (expression_at cursor.old) }
{
    let mut control = ControlStack::new();
    let mut code = Items::new(alloc);
    for _ in 0..cursor.left() {
        let instr = next(alloc, &mut control, cursor)?;
        code.push(instr)?;
        if control.is_ended() {
            return Ok(code);
        }
    }
    Err(at(ModuleRule::Size, 0))
}

/// The locals and the code that fill a body's size.
impl Filling for FuncBody {
    ghost fills = { body_at };

    #[tactic(auto, unfolding(crate::specs::Reading::body_at))]
    fn fill(alloc: Global, cursor: &mut Cursor<'_>) -> Result<FuncBody, ReadFail> {
        let locals = locals(alloc, cursor)?;
        let code = expression(alloc, cursor)?;
        Ok(FuncBody { locals, code })
    }
}

impl Decode for FuncBody {
    ghost reads = { filled_at body_at };

    fn read(alloc: Global, cursor: &mut Cursor<'_>) -> Result<FuncBody, ReadFail> {
        filled(alloc, cursor)
    }
}
