ghost use Rattle.std.specs.Prelude.{◌≡◌, ◌↔◌, IsTrue, IfOk, IfErr, ◌<◌, length, option_map};
ghost use Rattle.std.specs.List.{list_any};
ghost use Rattle.serde_json.specs.View.{view, items_view};
ghost use Rattle.patch_manifest.specs.Manifest.{IsVersion, id_of, texts_of, few_texts_of, paths_of, sources_of, is_text, has_texts, is_wrong_path};

use cm_base::limits::SOURCES;
use cm_base::{Name, Names, NoMemory};
use serde_json::Value;
use std::alloc::Global;

const MOST_SOURCES: usize = SOURCES as usize;

pub(crate) fn is_version(manifest: &Value) -> bool
    ensures { IsTrue result ↔ IsVersion (view manifest.now) }
{
    manifest.get("CmajorVersion").and_then(Value::as_u64) == Some(1)
}

pub(crate) fn id_of(manifest: &Value) -> Option<&str>
    ensures { option_map (λ text. text.now) result ≡ id_of (view manifest.now) }
{
    let id = manifest.get("ID")?.as_str()?;
    if id.is_empty() { None } else { Some(id) }
}

pub(crate) fn has_texts(manifest: &Value) -> bool
    ensures { result ≡ has_texts (view manifest.now) }
{
    is_text(manifest.get("version")) && is_text(manifest.get("name"))
}

fn is_text(member: Option<&Value>) -> bool
    ensures { result ≡ is_text (option_map (λ value. view value.now) member.entry) }
{
    match member {
        Some(value) => value.is_string(),
        None => true,
    }
}

pub(crate) fn sources_of(alloc: Global, manifest: &Value) -> Result<Option<Names>, NoMemory>
    ensures { IfOk result (λ sources. sources ≡ sources_of (view manifest.now)) }
{
    match manifest.get("source") {
        Some(source) => paths_of(alloc, source),
        None => Ok(None),
    }
}

fn paths_of(alloc: Global, source: &Value) -> Result<Option<Names>, NoMemory>
    ensures { IfOk result (λ paths. paths ≡ paths_of (view source.now)) }
{
    if let Some(path) = source.as_str() {
        let mut paths = Names::new(alloc);
        paths.push(Name::from_str(alloc, path)?)?;
        return Ok(Some(paths));
    }
    match source.as_array() {
        Some(paths) => few_texts_of(alloc, paths.as_slice()),
        None => Ok(None),
    }
}

fn few_texts_of(alloc: Global, values: &[Value]) -> Result<Option<Names>, NoMemory>
    ensures { IfOk result (λ texts. texts ≡ few_texts_of (items_view values.now)) }
{
    if values.is_empty() || values.len() > MOST_SOURCES {
        return Ok(None);
    }
    texts_of(alloc, values)
}

fn texts_of(alloc: Global, values: &[Value]) -> Result<Option<Names>, NoMemory>
    ensures { IfOk result (λ texts. texts ≡ texts_of (items_view values.now)) }
{
    let mut texts = Names::new(alloc);
    for value in values {
        let Some(text) = value.as_str() else {
            return Ok(None);
        };
        texts.push(Name::from_str(alloc, text)?)?;
    }
    Ok(Some(texts))
}

pub(crate) fn has_wrong_path(sources: &Names) -> bool
    ensures { result ≡ list_any is_wrong_path sources.now }
{
    sources
        .as_slice()
        .iter()
        .any(|path| is_wrong_path(path.as_str()))
}

fn is_wrong_path(path: &str) -> bool
    ensures { result ≡ is_wrong_path path.now }
{
    path.is_empty() || path.starts_with('/') || path.as_bytes().contains(&0)
}
