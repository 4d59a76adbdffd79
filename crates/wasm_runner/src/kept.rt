// The mutable globals of an instance, as signed numbers.

ghost use Rattle.std.specs.Prelude.{◌≡◌, map, min, length};
ghost use Rattle.wasm_tree.specs.Stopped.{signed_of, kept_globals};
ghost use Rattle.wasm_sound.specs.Kinds.{IsOf, AreOf};
ghost use Rattle.wasm_runner.specs.Snapshots.{kept_types};

use cm_base::Scalars;
use wasm_tree::{GlobalVar, ValType};

/// How many of the globals are mutable, and the greatest number where there are more.
pub fn count_mutable(vars: &[GlobalVar]) -> u32
    ensures { result ≡ min (length (kept_types vars.now)) 4294967295 }
{
    let mut count: u32 = 0;
    for var in vars {
        if var.mutable {
            count = count.saturating_add(1);
        }
    }
    count
}

// The signed number with these bits.
fn signed(ty: ValType, bits: u64) -> i64
    requires { IsOf ty bits }
    ensures { result ≡ signed_of ty bits }
{
    match ty {
        ValType::I32 => i64::from((bits as u32).cast_signed()),
        ValType::I64 => bits.cast_signed(),
    }
}

/// Writes the mutable globals, in order. It takes no memory.
pub fn put_kept(vars: &[GlobalVar], globals: &[u64], into: &mut Scalars)
    requires typed { AreOf (map (λ global. global.ty) vars.now) globals.now }
    requires long { length into.old ≡ length (kept_types vars.now) }
    ensures { into.new ≡ kept_globals vars.now globals.now }
{
    let mut at = 0;
    for (i, var) in vars.iter().enumerate() {
        if var.mutable {
            into.set(at, signed(var.ty, globals[i]));
            at += 1;
        }
    }
}
