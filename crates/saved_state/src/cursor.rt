ghost use Rattle.std.specs.Prelude.{◌≡◌, ◌≤◌, length, take, drop, None, IsTrue, ◌↔◌, []};
ghost use Rattle.saved_state.specs.declared.cursor.Stop.TheVariants as the_stop;
ghost use Rattle.saved_state.specs.Reading.{Gives, bytes_at, count_at, value_at, scalar_at, text_at, name_at, parameter_at, each_at, list_at};

use cm_base::{Bytes, Items, Name, Saved};
use std::alloc::{AllocError, Global};
use std::marker::Model;

/// Why a part isn't read.
#[derive(Debug, Drop)]
pub(crate) enum Stop {
    /// The bytes end early, or a name isn't UTF-8.
    Early,
    NoMemory,
}

impl From<AllocError> for Stop {
    ghost from_gives = { λ _ e. e ≡ the_stop.NoMemory };

    fn from(_error: AllocError) -> Stop {
        Stop::NoMemory
    }
}

/// The bytes of a state file that are still to be read. Contracts see it as these bytes. After an error it stands
/// anywhere.
#[derive(Drop)]
pub(crate) struct Cursor<'a> {
    bytes: &'a [u8],
}

impl<'a> Model for Cursor<'a> {
    ghost use Rattle.std.specs.Prelude.{List, ℕ};

    ghost Value = { List ℕ };

    ghost view = { λ c. c.bytes.now };
}

/// A part of a file, which is read from the front of bytes.
pub(crate) trait Part: Drop + Sized {
    ghost use Rattle.std.specs.Prelude.{List, ℕ, Option};

    ghost reads: { List ℕ → Option (Self × List ℕ) };

    fn read(alloc: Global, cursor: &mut Cursor<'_>) -> Result<Self, Stop>
        ensures { Gives (λ x. (x, cursor.new)) result (reads cursor.old) };
}

impl<'a> Cursor<'a> {
    /// At the front of these bytes.
    pub(crate) fn new(bytes: &'a [u8]) -> Cursor<'a>
        ensures { result ≡ bytes.now }
    {
        Cursor { bytes }
    }

    /// Whether no bytes are left.
    pub(crate) fn is_at_end(&self) -> bool
        ensures { IsTrue result ↔ (self.now ≡ []) }
    {
        self.bytes.is_empty()
    }

    /// The next bytes, so many.
    #[tactic(auto, unfolding(crate::specs::Reading::bytes_at))]
    fn bytes(&mut self, count: usize) -> Result<&'a [u8], Stop>
        ensures { Gives (λ bytes. (bytes.now, self.new)) result (bytes_at count self.old) }
    {
        let (bytes, rest) = self.bytes.split_at_checked(count).ok_or(Stop::Early)?;
        self.bytes = rest;
        Ok(bytes)
    }

    /// A count or a length.
    #[tactic(auto, unfolding(crate::specs::Reading::count_at, crate::specs::Reading::bytes_at))]
    pub(crate) fn count(&mut self) -> Result<u32, Stop>
        ensures { Gives (λ x. (x, self.new)) result (count_at self.old) }
    {
        let (four, rest) = self.bytes.split_first_chunk::<4>().ok_or(Stop::Early)?;
        self.bytes = rest;
        Ok(u32::from_le_bytes(*four))
    }

    /// A parameter's value.
    #[tactic(auto, unfolding(crate::specs::Reading::value_at, crate::specs::Reading::bytes_at))]
    pub(crate) fn value(&mut self) -> Result<i32, Stop>
        ensures { Gives (λ x. (x, self.new)) result (value_at self.old) }
    {
        let (four, rest) = self.bytes.split_first_chunk::<4>().ok_or(Stop::Early)?;
        self.bytes = rest;
        Ok(i32::from_le_bytes(*four))
    }

    /// A scalar.
    #[tactic(auto, unfolding(crate::specs::Reading::scalar_at, crate::specs::Reading::bytes_at))]
    fn scalar(&mut self) -> Result<i64, Stop>
        ensures { Gives (λ x. (x, self.new)) result (scalar_at self.old) }
    {
        let (eight, rest) = self.bytes.split_first_chunk::<8>().ok_or(Stop::Early)?;
        self.bytes = rest;
        Ok(i64::from_le_bytes(*eight))
    }

    /// A length, and as many bytes.
    #[tactic(auto, unfolding(crate::specs::Reading::text_at))]
    fn text(&mut self) -> Result<&'a [u8], Stop>
        ensures { Gives (λ bytes. (bytes.now, self.new)) result (text_at self.old) }
    {
        let length = self.count()?;
        self.bytes(length as usize)
    }

    /// A length, and as many bytes, which are UTF-8.
    #[tactic(auto, unfolding(crate::specs::Reading::name_at))]
    fn name(&mut self) -> Result<&'a str, Stop>
        ensures { Gives (λ name. (name.now, self.new)) result (name_at self.old) }
    {
        match std::str::from_utf8(self.text()?) {
            Ok(name) => Ok(name),
            Err(_) => Err(Stop::Early),
        }
    }
}

/// A copy of a length and as many bytes.
impl Part for Bytes {
    ghost reads = { text_at };

    fn read(alloc: Global, cursor: &mut Cursor<'_>) -> Result<Bytes, Stop> {
        Ok(Bytes::from_slice(alloc, cursor.text()?)?)
    }
}

impl Part for i64 {
    ghost reads = { scalar_at };

    fn read(_alloc: Global, cursor: &mut Cursor<'_>) -> Result<i64, Stop> {
        cursor.scalar()
    }
}

impl Part for Saved {
    ghost reads = { parameter_at };

    #[tactic(auto, unfolding(crate::specs::Reading::parameter_at))]
    fn read(alloc: Global, cursor: &mut Cursor<'_>) -> Result<Saved, Stop> {
        let name = Name::from_str(alloc, cursor.name()?)?;
        let value = i64::from(cursor.value()?);
        Ok(Saved { name, value })
    }
}

/// So many parts, one after another.
fn each<P: Part>(alloc: Global, count: u32, cursor: &mut Cursor<'_>) -> Result<Items<P>, Stop>
    ensures { Gives (λ x. (x, cursor.new)) result (each_at P.reads count cursor.old) }
{
    let mut parts = Items::new(alloc);
    for _ in 0..count {
        let part = P::read(alloc, cursor)?;
        parts.push(part)?;
    }
    Ok(parts)
}

/// A count, and as many parts.
#[tactic(auto, unfolding(crate::specs::Reading::list_at))]
pub(crate) fn list<P: Part>(alloc: Global, cursor: &mut Cursor<'_>) -> Result<Items<P>, Stop>
    ensures { Gives (λ x. (x, cursor.new)) result (list_at P.reads cursor.old) }
{
    let count = cursor.count()?;
    each::<P>(alloc, count, cursor)
}
