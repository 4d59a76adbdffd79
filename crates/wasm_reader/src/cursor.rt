ghost use Rattle.std.specs.Prelude.{◌≡◌, ◌<◌, ◌≤◌, ◌^◌, ◌-◌, [], Some, None, IfOk, IfSome, IfNone, ◌∷◌, length, take, drop, nat_lt, pos, ◌-ℤ◌, ◌≤ℤ◌, ◌<ℤ◌};
ghost use Rattle.wasm_reader.specs.Reading.{Gives, at as fault_at, or_fault, byte_at, last_unsigned as last_unsigned_of, unsigned_from, index_at, signed_byte as signed_byte_of, last_signed as last_signed_of, signed_from, signed_at, fixed_at, take_at, text_at, behind_id};
ghost use Rattle.std.specs.Bool.{OnTrue, OnFalse};
ghost use Rattle.wasm_tree.specs.declared.failure.ModuleRule.TheVariants.{Number as number};

use crate::fault::{ReadFail, at};
use std::marker::Model;
use wasm_tree::ModuleRule;

/// The bytes of some contents that are still to be read. Contracts see it as these bytes. After an error it
/// stands anywhere.
#[derive(Drop)]
pub struct Cursor<'a> {
    bytes: &'a [u8],
}

impl<'a> Model for Cursor<'a> {
    ghost use Rattle.std.specs.Prelude.{List, ℕ};

    ghost Value = { List ℕ };

    ghost view = { λ c. c.bytes.now };
}

/// Whether seven bits are a number of at most so many.
fn fits(low: u8, bits: u32) -> bool
    requires { low < 128 }
    ensures { result ≡ nat_lt low (2 ^ bits) }
{
    bits > 6 || low < 1 << bits
}

/// What the last byte of an unsigned number of so many bits stands for.
fn last_unsigned(start: usize, bits: u32, low: u8) -> Result<u64, ReadFail>
    requires { low < 128 }
    ensures value { Gives (λ x. x) result (or_fault (fault_at number start) (last_unsigned_of bits low)) }
    ensures small { IfOk result (λ x. x < 2 ^ bits) }
{
    if fits(low, bits) {
        Ok(low as u64)
    } else {
        Err(at(ModuleRule::Number, start))
    }
}

/// A byte below 128 as a signed number of seven bits.
fn signed_byte(byte: u8) -> i8
    requires { byte < 128 }
    ensures value { result ≡ signed_byte_of byte }
    ensures low { (pos 0 -ℤ pos 64) ≤ℤ result }
    ensures high { result <ℤ pos 64 }
{
    if byte < 64 {
        byte as i8
    } else {
        (byte as i16 - 128) as i8
    }
}

/// What the last byte of a signed number of so many bits stands for.
fn last_signed(start: usize, bits: u32, low: u8) -> Result<i64, ReadFail>
    requires some { 0 < bits }
    requires byte { low < 128 }
    ensures value { Gives (λ x. x) result (or_fault (fault_at number start) (last_signed_of bits low)) }
    ensures low { IfOk result (λ x. (pos 0 -ℤ pos (2 ^ (bits - 1))) ≤ℤ x) }
    ensures high { IfOk result (λ x. x <ℤ pos (2 ^ (bits - 1))) }
{
    let size = if low < 64 { low } else { 127 - low };
    if fits(size, bits - 1) {
        Ok(signed_byte(low) as i64)
    } else {
        Err(at(ModuleRule::Number, start))
    }
}

impl<'a> Cursor<'a> {
    /// At the front of these bytes.
    pub fn new(bytes: &'a [u8]) -> Cursor<'a>
        ensures { result ≡ bytes.now }
    {
        Cursor { bytes }
    }

    /// How many bytes are left.
    pub fn left(&self) -> usize
        ensures { result ≡ length self.now }
    {
        self.bytes.len()
    }

    /// The bytes that are left.
    pub fn rest(&self) -> &'a [u8]
        ensures { result.now ≡ self.now }
    {
        self.bytes
    }

    /// Takes all bytes that are left.
    pub fn take_all(&mut self) -> &'a [u8]
        ensures all { result.now ≡ self.old }
        ensures none { self.new ≡ [] }
    {
        let (all, none) = self.bytes.split_at(self.bytes.len());
        self.bytes = none;
        all
    }

    /// Takes this byte, if it is the next one.
    #[tactic(auto, unfolding(crate::specs::Reading::behind_id))]
    pub fn accept(&mut self, byte: u8) -> bool
        ensures taken { OnTrue result (behind_id byte self.old ≡ Some self.new) }
        ensures other { OnFalse result ((behind_id byte self.old ≡ None) × (self.new ≡ self.old)) }
    {
        match self.bytes.split_first() {
            Some((first, rest)) if *first == byte => {
                self.bytes = rest;
                true
            }
            _ => false,
        }
    }

    /// The next byte.
    #[tactic(auto, unfolding(crate::specs::Reading::byte_at))]
    pub fn byte(&mut self) -> Result<u8, ReadFail>
        ensures value { Gives (λ x. (x, self.new)) result (byte_at self.old) }
        ensures small { IfOk result (λ x. x < 256) }
    {
        match self.bytes.split_first() {
            None => Err(at(ModuleRule::Size, 0)),
            Some((first, rest)) => {
                self.bytes = rest;
                Ok(*first)
            }
        }
    }

    /// Takes this byte, which is due.
    #[tactic(auto, unfolding(crate::specs::Reading::fixed_at))]
    pub fn fixed(&mut self, due: u8) -> Result<(), ReadFail>
        ensures { Gives (λ _. self.new) result (fixed_at due self.old) }
    {
        let start = self.left();
        if self.byte()? == due {
            return Ok(());
        }
        Err(at(ModuleRule::Opcode, start))
    }

    /// Takes the next byte, if it is a number of its own, below 128. Most numbers are.
    fn short(&mut self) -> Option<u8>
        ensures taken { IfSome result (λ b. (b < 128) × (self.old ≡ b ∷ self.new)) }
        ensures other { IfNone result (self.new ≡ self.old) }
    {
        match self.bytes.split_first() {
            Some((first, rest)) if *first < 128 => {
                self.bytes = rest;
                Some(*first)
            }
            _ => None,
        }
    }

    /// A number without a sign, of at most this many bits, which begins where `start` bytes are left (Core
    /// Specification 1.0, 5.2.2). It calls itself for each further byte, ten times at most.
    fn unsigned(&mut self, start: usize, bits: u32) -> Result<u64, ReadFail>
        requires { bits ≤ 64 }
        ensures value { Gives (λ x. (x, self.new)) result (unsigned_from start bits self.old) }
        ensures small { IfOk result (λ x. x < 2 ^ bits) }
    {
        let low = self.byte()?;
        if low < 128 {
            return last_unsigned(start, bits, low);
        }
        if bits <= 7 {
            return Err(at(ModuleRule::Number, start));
        }
        let high = self.unsigned(start, bits - 7)?;
        Ok((low - 128) as u64 + 128 * high)
    }

    /// An unsigned number of 32 bits.
    #[tactic(auto, unfolding(crate::specs::Reading::index_at))]
    pub fn index(&mut self) -> Result<u32, ReadFail>
        ensures { Gives (λ x. (x, self.new)) result (index_at self.old) }
    {
        if let Some(value) = self.short() {
            return Ok(value as u32);
        }
        let value = self.unsigned(self.left(), 32)?;
        Ok(value as u32)
    }

    /// A number with a sign, in the same way.
    fn signed(&mut self, start: usize, bits: u32) -> Result<i64, ReadFail>
        requires some { 0 < bits }
        requires most { bits ≤ 64 }
        ensures value { Gives (λ x. (x, self.new)) result (signed_from start bits self.old) }
        ensures low { IfOk result (λ x. (pos 0 -ℤ pos (2 ^ (bits - 1))) ≤ℤ x) }
        ensures high { IfOk result (λ x. x <ℤ pos (2 ^ (bits - 1))) }
    {
        let low = self.byte()?;
        if low < 128 {
            return last_signed(start, bits, low);
        }
        if bits <= 7 {
            return Err(at(ModuleRule::Number, start));
        }
        let high = self.signed(start, bits - 7)?;
        Ok((low - 128) as i64 + 128 * high)
    }

    /// A signed number of 32 bits.
    #[tactic(auto, unfolding(crate::specs::Reading::signed_at))]
    pub fn signed32(&mut self) -> Result<i32, ReadFail>
        ensures { Gives (λ x. (x, self.new)) result (signed_at 32 self.old) }
    {
        if let Some(byte) = self.short() {
            return Ok(signed_byte(byte) as i32);
        }
        let value = self.signed(self.left(), 32)?;
        Ok(value as i32)
    }

    /// A signed number of 64 bits.
    #[tactic(auto, unfolding(crate::specs::Reading::signed_at))]
    pub fn signed64(&mut self) -> Result<i64, ReadFail>
        ensures { Gives (λ x. (x, self.new)) result (signed_at 64 self.old) }
    {
        if let Some(byte) = self.short() {
            return Ok(signed_byte(byte) as i64);
        }
        self.signed(self.left(), 64)
    }

    /// The next bytes, so many.
    #[tactic(auto, unfolding(crate::specs::Reading::take_at))]
    pub fn take(&mut self, count: usize) -> Result<&'a [u8], ReadFail>
        ensures { Gives (λ text. (text.now, self.new)) result (take_at count self.old) }
    {
        if self.bytes.len() < count {
            return Err(at(ModuleRule::Size, 0));
        }
        let (front, rest) = self.bytes.split_at(count);
        self.bytes = rest;
        Ok(front)
    }

    /// The contents that are the next bytes, so many or as many as are left.
    pub fn contents(&mut self, size: usize) -> Cursor<'a>
        ensures front { result ≡ take size self.old }
        ensures rest { self.new ≡ drop size self.old }
    {
        let (front, rest) = self.bytes.split_at(size.min(self.bytes.len()));
        self.bytes = rest;
        Cursor { bytes: front }
    }

    /// A length, and as many bytes.
    #[tactic(auto, unfolding(crate::specs::Reading::text_at))]
    pub fn text(&mut self) -> Result<&'a [u8], ReadFail>
        ensures { Gives (λ text. (text.now, self.new)) result (text_at self.old) }
    {
        let length = self.index()?;
        self.take(length as usize)
    }
}
