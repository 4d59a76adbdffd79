ghost use Rattle.std.specs.Prelude.{◌≡◌, ◌≤◌, ◌++◌, ◌∷◌, ◌⊎◌, length, pos, negsuc, OnOk, FitsSigned};
ghost use Rattle.std.specs.Int.{w32};
ghost use Rattle.wasm_tree.specs.Spelled.{Begins, Index, Signed};
ghost use Rattle.wasm_writer.specs.Spelling.{unsigned_bytes, signed_bytes};

use cm_base::NoMemory;

/// Appends the shortest unsigned LEB128 of the number (Core Specification 1.0, 5.2.2).
#[tactic(auto, using(crate::proofs::Numbers::index_spelled, crate::proofs::Numbers::unsigned_written, crate::proofs::Numbers::unsigned_end))]
pub fn put_unsigned(out: &mut Vec<u8>, number: u32) -> Result<(), NoMemory>
    ensures appended { OnOk result (out.new.items ≡ out.old.items ++ unsigned_bytes number) }
    ensures spelled { Index number (unsigned_bytes number) }
{
    let mut rest = number;
    while rest >= 128 {
        out.push((rest % 128) as u8 + 128)?;
        rest /= 128;
    }
    out.push(rest as u8)?;
    Ok(())
}

/// Appends the shortest signed LEB128 of the number.
#[tactic(auto, using(crate::proofs::Numbers::signed_spelled_32, crate::proofs::Numbers::signed_spelled_64, crate::proofs::Numbers::signed_written, crate::proofs::Numbers::signed_end))]
pub fn put_signed(out: &mut Vec<u8>, number: i64) -> Result<(), NoMemory>
    ensures appended { OnOk result (out.new.items ≡ out.old.items ++ signed_bytes number) }
    ensures narrow { FitsSigned w32 number → Signed 32 number (signed_bytes number) }
    ensures wide { Signed 64 number (signed_bytes number) }
{
    let mut rest = number;
    while rest < -64 || rest > 63 {
        out.push(rest.rem_euclid(128) as u8 + 128)?;
        rest = rest.div_euclid(128);
    }
    out.push(rest.rem_euclid(128) as u8)?;
    Ok(())
}

/// Appends a signed number of 32 bits.
pub fn put_narrow(out: &mut Vec<u8>, number: i32) -> Result<(), NoMemory>
    ensures appended { OnOk result (out.new.items ≡ out.old.items ++ signed_bytes number) }
    ensures spelled { OnOk result (Signed 32 number (signed_bytes number)) }
{
    put_signed(out, i64::from(number))
}

/// Appends a kind and an index.
#[tactic(auto, using(crate::proofs::Parts::begins))]
pub fn put_indexed(out: &mut Vec<u8>, byte: u8, index: u32) -> Result<(), NoMemory>
    ensures appended { OnOk result (out.new.items ≡ out.old.items ++ byte ∷ unsigned_bytes index) }
    ensures spelled { OnOk result (Begins byte (Index index) (byte ∷ unsigned_bytes index)) }
{
    out.push(byte)?;
    put_unsigned(out, index)
}

/// How many bytes the shortest unsigned LEB128 of the number has; a number past 32 bits, which has none, is
/// given five.
#[tactic(auto, using(crate::proofs::Sizes::one_byte, crate::proofs::Sizes::two_bytes, crate::proofs::Sizes::three_bytes, crate::proofs::Sizes::four_bytes, crate::proofs::Sizes::five_bytes))]
pub fn size_of_unsigned(number: u64) -> u64
    ensures exact { result ≡ length (unsigned_bytes number) }
    ensures few { result ≤ 5 }
{
    if number < 128 {
        1
    } else if number < 16_384 {
        2
    } else if number < 2_097_152 {
        3
    } else if number < 268_435_456 {
        4
    } else {
        5
    }
}

/// The number, or for one below 0 its complement.
fn magnitude(number: i64) -> u64
    ensures { (number ≡ pos result) ⊎ (number ≡ negsuc result) }
{
    if number < 0 {
        (number + 1).unsigned_abs()
    } else {
        number.unsigned_abs()
    }
}

/// How many bytes the shortest signed LEB128 of the number has.
#[tactic(auto, using(crate::proofs::Sizes::signed_size_as, crate::proofs::Sizes::signed_few, crate::proofs::Sizes::signed_size_more, crate::proofs::Sizes::signed_size_last))]
pub fn size_of_signed(number: i64) -> u64
    ensures exact { result ≡ length (signed_bytes number) }
    ensures few { result ≤ 10 }
{
    let mut rest = magnitude(number);
    let mut size = 1;
    while rest >= 64 {
        size += 1;
        rest /= 128;
    }
    size
}
