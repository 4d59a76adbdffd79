// What reading a manifest and naming a source answer, in the words of rows.

use crate::faults::fail_text;
use patch_manifest::{Manifest, read_manifest, source_name};
use std::alloc::{AllocError, Global};

fn manifest_text(alloc: Global, manifest: &Manifest) -> Result<String, AllocError> {
    let id = manifest.id.as_str();
    let mut line = format!(in alloc; "{id:?}")?;
    for source in manifest.sources.as_slice() {
        let path = source.as_str();
        write!(line, " {path:?}")?;
    }
    Ok(line)
}

/// The identifier and the paths of the sources, as `"x.p" "p.cmajor"`, or the cause of the refusal.
pub fn manifest_answer(alloc: Global, bytes: &[u8]) -> Result<String, AllocError> {
    match read_manifest(alloc, bytes) {
        Ok(manifest) => manifest_text(alloc, &manifest),
        Err(fail) => fail_text(alloc, &fail),
    }
}

/// The identifier and how many sources there are, as `"x.p" 64 sources`, or the cause of the refusal.
pub fn manifest_sizes_answer(alloc: Global, bytes: &[u8]) -> Result<String, AllocError> {
    match read_manifest(alloc, bytes) {
        Ok(manifest) => {
            let (id, count) = (manifest.id.as_str(), manifest.sources.len());
            format!(in alloc; "{id:?} {count} sources")
        }
        Err(fail) => fail_text(alloc, &fail),
    }
}

/// The name of a source: the first line of the text is the name of a manifest, and what stands behind it is a path.
pub fn source_answer(alloc: Global, bytes: &[u8]) -> Result<String, AllocError> {
    let Ok(text) = std::str::from_utf8(bytes) else {
        return String::from_str(alloc, "no text");
    };
    let Some((manifest, path)) = text.split_once('\n') else {
        return String::from_str(alloc, "no path");
    };
    match source_name(alloc, manifest, path) {
        Ok(name) => String::from_str(alloc, name.as_str()),
        Err(_) => String::from_str(alloc, "no memory"),
    }
}
