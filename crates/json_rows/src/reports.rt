// The words that end a row, and the answers that they ask for.

ghost use Rattle.cm_base.specs.HostEnds.{IsLawful};

use crate::cuts::{manifest_cuts, script_cuts, state_cuts};
use crate::manifests::{manifest_answer, manifest_sizes_answer, source_answer};
use crate::scripts::{script_answer, script_sizes_answer};
use crate::states::{applied_answer, state_answer, state_sizes_answer};
use crate::writing::written_answer;
use cm_base::HostEnds;
use std::alloc::{AllocError, Global};

fn script_reply(
    alloc: Global,
    word: &str,
    bytes: &[u8],
    host: &HostEnds,
) -> Result<Option<String>, AllocError>
    requires { IsLawful host.now }
{
    if word == "script" {
        return Ok(Some(script_answer(alloc, bytes, host)?));
    }
    if word == "script-sizes" {
        return Ok(Some(script_sizes_answer(alloc, bytes, host)?));
    }
    if word == "script-cuts" {
        return Ok(Some(script_cuts(alloc, bytes, host)?));
    }
    Ok(None)
}

fn state_reply(alloc: Global, word: &str, bytes: &[u8]) -> Result<Option<String>, AllocError> {
    if word == "state" {
        return Ok(Some(state_answer(alloc, bytes)?));
    }
    if word == "state-sizes" {
        return Ok(Some(state_sizes_answer(alloc, bytes)?));
    }
    if word == "state-cuts" {
        return Ok(Some(state_cuts(alloc, bytes)?));
    }
    Ok(None)
}

fn parameter_reply(
    alloc: Global,
    word: &str,
    bytes: &[u8],
    host: &HostEnds,
) -> Result<Option<String>, AllocError>
    requires { IsLawful host.now }
{
    if word == "applied" {
        return Ok(Some(applied_answer(alloc, bytes, host)?));
    }
    if word == "written" {
        return Ok(Some(written_answer(alloc, bytes, host)?));
    }
    Ok(None)
}

fn manifest_reply(alloc: Global, word: &str, bytes: &[u8]) -> Result<Option<String>, AllocError> {
    if word == "manifest" {
        return Ok(Some(manifest_answer(alloc, bytes)?));
    }
    if word == "manifest-sizes" {
        return Ok(Some(manifest_sizes_answer(alloc, bytes)?));
    }
    if word == "manifest-cuts" {
        return Ok(Some(manifest_cuts(alloc, bytes)?));
    }
    if word == "source" {
        return Ok(Some(source_answer(alloc, bytes)?));
    }
    Ok(None)
}

/// The answer that a word asks for, if it ends a row.
pub fn reply(
    alloc: Global,
    word: &str,
    bytes: &[u8],
    host: &HostEnds,
) -> Result<Option<String>, AllocError>
    requires { IsLawful host.now }
{
    if word.starts_with("script") {
        return script_reply(alloc, word, bytes, host);
    }
    if word.starts_with("state") {
        return state_reply(alloc, word, bytes);
    }
    if word == "applied" || word == "written" {
        return parameter_reply(alloc, word, bytes, host);
    }
    manifest_reply(alloc, word, bytes)
}
