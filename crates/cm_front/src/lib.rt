//! Carries the sources of a patch through the phases that there are: all files are cut into tokens, then all are
//! parsed, and then the one form of patch that is compiled so far is looked for in their trees: one processor that
//! writes its input stream to its output stream in each frame. The layers above rely on the contract of `front`: it
//! gives the three names exactly where the trees that the sources spell are of the form (`IsForm` of `specs/Phases`,
//! by the trees of `specs/Form`), and else refuses in the first phase that has a fault (`IsRefusal` of `specs/Answer`).
#![tactic(auto)]

ghost use Rattle.std.specs.Prelude.{◌≡◌, ◌≢◌, ◌≤◌, ◌<◌, ◌^◌, ℕ, List, length, IfOk, MatchResult};
ghost use Rattle.cm_base.specs.declared.failure.Fail.TheVariants.{NoMemory as LacksMemory, Refused as IsRefused};
ghost use Rattle.cm_base.specs.declared.cause.Cause.TheVariants.{NotYet};
ghost use Rattle.cm_base.specs.Answers.{IfRefused, refusal};
ghost use Rattle.cm_front.specs.Answer.{IsRefusal, IsUncovered, first_place};
ghost use Rattle.cm_front.specs.Form.{HaveForm};
ghost use Rattle.cm_front.specs.Phases.{IsForm, bytes_in};

mod form;
mod names;
mod phases;

use cm_base::{Bytes, Cause, Fail, Items, Name, NoMemory, Place};
use cm_tree::File;
use form::{Names, find};
pub use names::Through;
use phases::{lexed, parsed};
use std::alloc::Global;

/// The bytes of a patch's source files, in the order of its manifest. They are numbered from 1.
pub type Sources = Items<Bytes>;

fn owned(alloc: Global, names: &Names<'_>) -> Result<Through, NoMemory>
    ensures { IfOk result (λ t.
        (t.processor ≡ names.now.processor.now) × (t.input ≡ names.now.input.now) × (t.output ≡ names.now.output.now)) }
{
    Ok(Through {
        processor: Name::from_str(alloc, names.processor.as_str())?,
        input: Name::from_str(alloc, names.input.as_str())?,
        output: Name::from_str(alloc, names.output.as_str())?,
    })
}

fn not_yet(alloc: Global) -> Fail
    ensures { result ≡ IsRefused (refusal NotYet first_place) }
{
    let first = Place {
        file: 1,
        line: 1,
        column: 1,
    };
    Fail::refused(alloc, Cause::NotYet, first)
}

/// The names of a patch whose trees are of the form.
fn through(alloc: Global, files: &[File]) -> Result<Through, Fail>
    ensures ok { IfOk result (λ t. HaveForm files.now t.processor t.input t.output) }
    ensures only { (processor input output : List ℕ) → HaveForm files.now processor input output →
        MatchResult result (λ t. (t.processor ≡ processor) × (t.input ≡ input) × (t.output ≡ output)) (λ e. e ≡ LacksMemory) }
    ensures refused { IfRefused result (IsUncovered files.now) }
{
    match find(files) {
        Some(names) => Ok(owned(alloc, &names)?),
        None => Err(not_yet(alloc)),
    }
}

/// The names of a patch of the form: docs/LANGUAGE.md, "What is compiled so far". The sources are fewer than 2^31 and
/// have fewer than 2^31 bytes in all.
///
/// # Errors
/// `Refused` where a source has a fault of lexing or grammar, with the cause and the place of one of the first phase
/// that has any, and by `NotYet`, at line 1 and column 1 of file 1, where they have none and the patch is of another
/// form. `NoMemory` where memory runs out.
pub fn front(alloc: Global, sources: &Sources) -> Result<Through, Fail>
    requires files { length sources.now < 2 ^ 31 }
    requires bytes { bytes_in sources.now < 2 ^ 31 }
    ensures ok { IfOk result (λ t. IsForm sources.now t.processor t.input t.output) }
    // The names of the form are found, and there are no others.
    ensures only { (processor input output : List ℕ) → IsForm sources.now processor input output →
        MatchResult result (λ t. (t.processor ≡ processor) × (t.input ≡ input) × (t.output ≡ output)) (λ e. e ≡ LacksMemory) }
    ensures refused { IfRefused result (IsRefusal sources.now) }
    ensures distinct { IfOk result (λ t. (t.processor ≢ t.input) × (t.processor ≢ t.output) × (t.input ≢ t.output)) }
    ensures within { IfOk result (λ t.
        (length t.processor ≤ bytes_in sources.now) × (length t.input ≤ bytes_in sources.now) × (length t.output ≤ bytes_in sources.now)) }
{
    let tokens = lexed(alloc, sources.as_slice())?;
    let files = parsed(alloc, tokens.as_slice())?;
    through(alloc, files.as_slice())
}

#[cfg(test)]
mod tests;
