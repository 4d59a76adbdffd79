ghost use Rattle.std.specs.Prelude.{◌≡◌, ◌↔◌, ◌<◌, IsTrue, OnOk, OnErr, IfSome, IfNone, length, slice_set, ◌++◌, ◌∷◌, []};
ghost use Rattle.std.specs.Option.{option_copied};
ghost use Rattle.cm_io.specs.Files.{file_at, with_file, HasDistinctNames};

use cm_base::{Bytes, Items, Name};
use std::alloc::{AllocError, Global};

/// Files by their names, each name once.
pub type FileList = Items<(Name, Bytes)>;

/// Whether no name stands twice.
pub fn has_distinct_names(files: &FileList) -> bool
    ensures { IsTrue result ↔ HasDistinctNames files.now }
{
    let files = files.as_slice();
    for (at, file) in files.iter().enumerate() {
        if file_named(&files[at + 1..], file.0.as_bytes()).is_some() {
            return false;
        }
    }
    true
}

/// The bytes of the file of this name.
pub fn file_named<'a>(files: &'a [(Name, Bytes)], name: &[u8]) -> Option<&'a [u8]>
    ensures { option_copied result ≡ file_at files.now name.now }
{
    for file in files {
        if file.0.as_bytes() == name {
            return Some(file.1.as_slice());
        }
    }
    None
}

/// The place of the file of this name.
fn place_of(files: &[(Name, Bytes)], name: &[u8]) -> Option<usize>
    ensures within { IfSome result (λ at. at < length files.now) }
    ensures found { IfSome result (λ at. (bytes : _) → with_file files.now name.now bytes ≡ slice_set files.now at (name.now, bytes)) }
    ensures absent { IfNone result ((bytes : _) → with_file files.now name.now bytes ≡ files.now ++ (name.now, bytes) ∷ []) }
{
    for (at, file) in files.iter().enumerate() {
        if file.0.as_bytes() == name {
            return Some(at);
        }
    }
    None
}

#[tactic(auto, using(crate::proofs::FileLemmas::names_stay_distinct))]
/// Makes `bytes` the whole file of that name. Without memory the files stay as they are.
pub fn keep_file(
    alloc: Global,
    files: &mut FileList,
    name: &str,
    bytes: &[u8],
) -> Result<(), AllocError>
    ensures ok { OnOk result (files.new ≡ with_file files.old name.now bytes.now) }
    ensures err { OnErr result (files.new ≡ files.old) }
    ensures distinct { HasDistinctNames files.old → HasDistinctNames files.new }
{
    let file = (
        Name::from_str(alloc, name)?,
        Items::from_slice(alloc, bytes)?,
    );
    match place_of(files.as_slice(), name.as_bytes()) {
        Some(at) => files.set(at, file),
        None => files.push(file)?,
    }
    Ok(())
}
