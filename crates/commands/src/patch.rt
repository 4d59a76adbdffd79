//! The patch that a folder holds under a manifest's name.

ghost use Rattle.std.specs.Prelude.{◌≡◌, ◌≤◌, ◌<◌, ◌^◌, length, map, IfOk, IfErr, MatchResult};
ghost use Rattle.cm_front.specs.Phases.{bytes_in};
ghost use Rattle.cm_io.specs.Seen.{IfTold, OnlyRead};
ghost use Rattle.patch_manifest.specs.SourceName.{file_name};
ghost use Rattle.commands.specs.declared.status.FileRef.TheVariants.{Source};
ghost use Rattle.commands.specs.Patch.{AreNames, NameSome, NamesSources, SourcesOf, HaveTexts, NamePatch, NamedPatchOf, RefusesManifest, RefusesTexts, NoSources, LackTexts, NoPatch, all_sources};
ghost use Rattle.commands.specs.Files.{HasFile, IsPatchFile, Unread, least_limit};
ghost use Rattle.commands.specs.Steps.{Stopped, Refuses};

use crate::files::read_file;
use crate::status::{FileRef, Status};
use crate::stop::{Stop, about};
use cm_base::limits::{MANIFEST_BYTES, SOURCE_BYTES};
use cm_base::{Bytes, Fail, Items, Name, Names, NoMemory};
use cm_front::{Sources, Through, front};
use cm_io::Folder;
use patch_manifest::{read_manifest, source_name};
use std::alloc::Global;

/// The names of the patch that the folder holds under the manifest's name.
pub fn read_patch<F: Folder>(alloc: Global, folder: &mut F, manifest: &str) -> Result<Through, Stop>
    ensures only_read { OnlyRead (F.seen folder.old) (F.seen folder.new) }
    ensures found { IfOk result (λ t. IfTold (F.seen folder.old) (λ files. NamedPatchOf files manifest.now t.input t.output)) }
    ensures some { IfOk result (λ t. NameSome t.input t.output) }
    ensures names { IfOk result (λ t. AreNames t.input t.output) }
    ensures stopped { IfErr result (λ stop. Stopped (F.seen folder.old) (F.seen folder.new) IsPatchFile (λ files. NoPatch files manifest.now) stop.status) }
{
    let names = about(alloc, manifest, read_names(alloc, folder, manifest))?;
    let texts = read_sources(alloc, folder, names.as_slice())?;
    meaning(alloc, names.as_slice(), &texts)
}

/// The names of the files of the sources, which the manifest gives.
fn read_names<F: Folder>(alloc: Global, folder: &mut F, manifest: &str) -> Result<Names, Status>
    ensures only_read { OnlyRead (F.seen folder.old) (F.seen folder.new) }
    ensures found { IfOk result (λ names. IfTold (F.seen folder.old) (λ files. SourcesOf files manifest.now names)) }
    ensures few { IfOk result (λ names. length names ≤ 64) }
    ensures stopped { IfErr result (Stopped (F.seen folder.old) (F.seen folder.new) IsPatchFile (λ files. NoSources files manifest.now)) }
{
    let bytes = read_file(alloc, folder, manifest, FileRef::Manifest, MANIFEST_BYTES)?;
    source_names(alloc, manifest, bytes.as_slice())
}

/// The names of the files of the sources that a manifest's bytes name.
fn source_names(alloc: Global, manifest: &str, bytes: &[u8]) -> Result<Names, Status>
    ensures found { IfOk result (λ names. NamesSources manifest.now bytes.now names) }
    ensures few { IfOk result (λ names. length names ≤ 64) }
    ensures stopped { IfErr result (Refuses (RefusesManifest bytes.now)) }
{
    let found = read_manifest(alloc, bytes)?;
    Ok(file_names(alloc, manifest, found.sources.as_slice())?)
}

/// The names of the files with these paths.
fn file_names(alloc: Global, manifest: &str, paths: &[Name]) -> Result<Names, NoMemory>
    ensures { IfOk result (λ names. names ≡ map (file_name manifest.now) paths.now) }
{
    let mut names = Items::new(alloc);
    for path in paths {
        names.push(source_name(alloc, manifest, path.as_str())?)?;
    }
    Ok(names)
}

/// The texts of the sources in these files.
fn read_sources<F: Folder>(alloc: Global, folder: &mut F, names: &[Name]) -> Result<Sources, Stop>
    requires { length names.now ≤ 64 }
    ensures only_read { OnlyRead (F.seen folder.old) (F.seen folder.new) }
    ensures found { IfOk result (λ texts. IfTold (F.seen folder.old) (λ files. HaveTexts files all_sources names.now texts)) }
    ensures few { IfOk result (λ texts. length texts ≤ 64) }
    ensures within { IfOk result (λ texts. bytes_in texts ≤ all_sources) }
    ensures stopped { IfErr result (λ stop. Stopped (F.seen folder.old) (F.seen folder.new) IsPatchFile (λ files. LackTexts files 1 all_sources names.now) stop.status) }
{
    let mut texts = Items::new(alloc);
    let mut left = SOURCE_BYTES;
    for (index, name) in names.iter().enumerate() {
        let text = read_source(alloc, folder, name.as_str(), index as u32 + 1, left)?;
        left -= text.len() as u64;
        texts.push(text)?;
    }
    Ok(texts)
}

/// The text of the source with this number, where there are so many bytes left for it.
fn read_source<F: Folder>(
    alloc: Global,
    folder: &mut F,
    name: &str,
    number: u32,
    left: u64,
) -> Result<Bytes, Stop>
    requires least { least_limit (Source number) ≤ left }
    requires most { left ≤ all_sources }
    ensures only_read { OnlyRead (F.seen folder.old) (F.seen folder.new) }
    ensures within { IfOk result (λ text. length text ≤ left) }
    ensures held { IfOk result (λ text. IfTold (F.seen folder.old) (λ files. HasFile files name.now left text)) }
    ensures stopped { IfErr result (λ stop. Stopped (F.seen folder.old) (F.seen folder.new) (λ f. f ≡ Source number) (λ files. Unread files (Source number) name.now left) stop.status) }
{
    about(
        alloc,
        name,
        read_file(alloc, folder, name, FileRef::Source(number), left),
    )
}

/// The names of the patch that the texts mean. `names` are those of their files.
fn meaning(alloc: Global, names: &[Name], texts: &Sources) -> Result<Through, Stop>
    requires few { length texts.now ≤ 64 }
    requires bytes { bytes_in texts.now ≤ all_sources }
    ensures found { IfOk result (λ t. NamePatch texts.now t.input t.output) }
    ensures some { IfOk result (λ t. NameSome t.input t.output) }
    ensures names { IfOk result (λ t. AreNames t.input t.output) }
    ensures stopped { IfErr result (λ stop. Refuses (RefusesTexts texts.now) stop.status) }
{
    match front(alloc, texts) {
        Ok(found) => Ok(found),
        Err(fail) => about(alloc, file_of(names, &fail), Err(Status::from(fail))),
    }
}

/// The name of the file in which a source is refused, and nothing where none is.
fn file_of<'a>(names: &'a [Name], fail: &Fail) -> &'a str {
    match fail {
        Fail::Refused(refused) => name_at(names, refused.place.file),
        Fail::NoMemory => "",
    }
}

/// The name with this number, from 1.
fn name_at(names: &[Name], number: u32) -> &str {
    match number.checked_sub(1) {
        Some(index) => names.get(index as usize).map_or("", |name| name.as_str()),
        None => "",
    }
}
