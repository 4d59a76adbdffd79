//! The phases lexing and grammar: each over all files, in their order, before the next phase begins.

ghost use Rattle.std.specs.Prelude.{◌≡◌, ◌<◌, ◌^◌, List, length, All, IfOk};
ghost use Rattle.cm_tree.specs.declared.file.File.{File as TheFile};
ghost use Rattle.cm_tree.specs.declared.tokens.Tokens.{Tokens};
ghost use Rattle.cm_base.specs.Answers.{IfRefused, IsOkUnlessMemory};
ghost use Rattle.cm_front.specs.Answer.{IsLexing, IsParsing};
ghost use Rattle.cm_front.specs.Phases.{AreTokens, AreFiles, bytes_in};
ghost use Rattle.cm_front.specs.Spans.{HaveSpans, AreFew};

use cm_base::{Bytes, Fail, Items};
use cm_lexer::lex;
use cm_parser::parse;
use cm_tree::{File, Tokens};
use std::alloc::Global;

/// The tokens of each text.
pub fn lexed(alloc: Global, sources: &[Bytes]) -> Result<Items<Tokens>, Fail>
    requires files { length sources.now < 2 ^ 31 }
    requires bytes { bytes_in sources.now < 2 ^ 31 }
    ensures found { IfOk result (λ all. AreTokens sources.now all) }
    ensures only { (all : List Tokens) → AreTokens sources.now all → IsOkUnlessMemory result (λ found. found ≡ all) }
    ensures spans { IfOk result (λ all. HaveSpans sources.now all) }
    ensures refused { IfRefused result (IsLexing sources.now) }
{
    let mut found = Items::new(alloc);
    for (number, bytes) in sources.iter().enumerate() {
        let tokens = lex(alloc, number as u32 + 1, bytes.as_slice())?;
        found.push(tokens)?;
    }
    Ok(found)
}

/// The trees of files with these tokens.
pub fn parsed(alloc: Global, all: &[Tokens]) -> Result<Items<File>, Fail>
    requires { AreFew all.now }
    ensures found { IfOk result (λ files. AreFiles all.now files) }
    ensures only { (files : List TheFile) → AreFiles all.now files → IsOkUnlessMemory result (λ found. found ≡ files) }
    ensures refused { IfRefused result (IsParsing all.now) }
{
    let mut found = Items::new(alloc);
    for tokens in all {
        let file = parse(alloc, tokens)?;
        found.push(file)?;
    }
    Ok(found)
}
