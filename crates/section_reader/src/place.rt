ghost use Rattle.std.specs.Prelude.{◌≡◌, ℕ, length, IfOk};
ghost use Rattle.wasm_tree.specs.Refusal.{IsSectionAt, IsCmajorAt};
ghost use Rattle.wasm_reader.specs.Reading.{Gives, text_at};
ghost use Rattle.section_reader.specs.declared.place.Wanted.TheVariants.{Section as WantsSection, Cmajor as WantsCmajor};
ghost use Rattle.section_reader.specs.Places.{raw_at, is_name, is_wanted as is_wanted_raw, left_at};

use cm_base::NoMemory;
use wasm_reader::{Cursor, ReadFail};
use wasm_tree::{CMAJOR, CUSTOM_ID, HEADER};

/// A section that is sought.
#[derive(Clone, Copy, Debug, PartialEq, Eq)]
pub enum Wanted {
    /// The one with this id.
    Section(u8),
    /// A custom section of the name `cmajor`.
    Cmajor,
}

/// A section's id and its contents.
#[tactic(auto, unfolding(crate::specs::Places::raw_at))]
fn raw<'a>(cursor: &mut Cursor<'a>) -> Result<(u8, &'a [u8]), ReadFail>
    ensures { Gives (λ r. (record { id = r.0; contents = r.1.now }, cursor.new)) result (raw_at cursor.old) }
{
    let id = cursor.byte()?;
    let contents = cursor.text()?;
    Ok((id, contents))
}

/// Whether the contents of a custom section begin with the name `cmajor`.
fn names_cmajor(contents: &[u8]) -> Result<bool, NoMemory>
    ensures { IfOk result (λ names. names ≡ is_name (text_at contents.now)) }
{
    match Cursor::new(contents).text() {
        Ok(name) => Ok(name == CMAJOR),
        Err(ReadFail::Fault(_)) => Ok(false),
        Err(ReadFail::NoMemory) => Err(NoMemory),
    }
}

fn is_wanted(wanted: Wanted, id: u8, contents: &[u8]) -> Result<bool, NoMemory>
    ensures { IfOk result (λ is. is ≡ is_wanted_raw wanted (record { id = id; contents = contents.now })) }
{
    match wanted {
        Wanted::Section(sought) => Ok(id == sought),
        Wanted::Cmajor => Ok(id == CUSTOM_ID && names_cmajor(contents)?),
    }
}

/// How many bytes of these sections are left where the wanted one begins that stands behind so many others.
#[tactic(auto, using(crate::proofs::PlaceLaws::left_fault, crate::proofs::PlaceLaws::left_here, crate::proofs::PlaceLaws::left_next, crate::proofs::PlaceLaws::left_other, crate::proofs::PlaceLaws::left_none))]
fn left_of(sections: &[u8], wanted: Wanted, others: u32) -> Result<usize, NoMemory>
    ensures { IfOk result (λ left. left ≡ left_at wanted others (length sections.now) sections.now) }
{
    let mut cursor = Cursor::new(sections);
    let mut before = others;
    for _ in 0..sections.len() {
        let here = cursor.left();
        let (id, contents) = match raw(&mut cursor) {
            Ok(section) => section,
            Err(ReadFail::Fault(_)) => return Ok(0),
            Err(ReadFail::NoMemory) => return Err(NoMemory),
        };
        if is_wanted(wanted, id, contents)? {
            if before == 0 {
                return Ok(here);
            }
            before -= 1;
        }
    }
    Ok(0)
}

/// The offset of the id byte of a section in the bytes of a module: of the one with an id, or of the one of the name
/// `cmajor` that stands behind so many others of this name. Where there is none, it is the length of the bytes. It takes
/// no memory.
pub fn offset_of(bytes: &[u8], wanted: Wanted, others: u32) -> Result<u64, NoMemory>
    // Where there is such a section, one has this offset.
    ensures section { IfOk result (λ offset. (id there : ℕ) → wanted ≡ WantsSection id → others ≡ 0 → IsSectionAt id there bytes.now → IsSectionAt id offset bytes.now) }
    ensures cmajor { IfOk result (λ offset. (there : ℕ) → wanted ≡ WantsCmajor → IsCmajorAt others there bytes.now → IsCmajorAt others offset bytes.now) }
{
    let (_header, sections) = bytes.split_at(HEADER.len().min(bytes.len()));
    let left = left_of(sections, wanted, others)?;
    Ok(bytes.len().saturating_sub(left) as u64)
}
