ghost use Rattle.std.specs.Prelude.{◌≡◌, [], ◌<◌, ◌^◌, length, Ok, IfOk};
ghost use Rattle.cm_tree.specs.Faults.{IsFile};
ghost use Rattle.cm_tree.specs.declared.file.File.{File as TheFile};
ghost use Rattle.file_grammar.specs.Files.{decls};
ghost use Rattle.cm_base.specs.Answers.{IfRefused, IsOkUnlessMemory};
ghost use Rattle.cm_parser.specs.Answer.{IsRefusal, IsFileRefusal};

use crate::decls::decls;
use cm_base::{Cause, Fail};
use cm_tree::{File, Tokens};
use file_grammar::reads_files;
use std::alloc::Global;
use token_reader::{Cursor, Stop};

/// How high a tree may be: docs/LANGUAGE.md, "Limits".
const MAX_HEIGHT: u16 = 256;

/// The file as it is read from left to right, or where the reading stops.
fn reading(alloc: Global, tokens: &Tokens) -> Result<File, Fail>
    requires few { length tokens.now.list < 2 ^ 31 }
    // All the tokens are read, and the tree is what the reading answers.
    ensures found { IfOk result (λ file. decls 256 tokens.now.list ≡ Ok (file.decls, [])) }
    ensures refused { IfRefused result (IsRefusal (decls 256 tokens.now.list) tokens.now.last) }
{
    let mut cursor = Cursor::new(alloc, tokens.list.as_slice());
    match decls(&mut cursor, MAX_HEIGHT) {
        Ok(decls) => Ok(File { decls }),
        Err(Stop::Here) => Err(Fail::refused(alloc, Cause::Grammar, cursor.place_or(tokens.last))),
        Err(Stop::NoMemory) => Err(Fail::NoMemory),
    }
}

/// The file that the tokens spell. It is refused where they spell none of height 256 at most, with the cause
/// `Grammar` and the place of a token such that no file of that height begins with the tokens through it; behind the last
/// token the place is that behind the last byte. docs/LANGUAGE.md, "Faults of the grammar".
pub fn parse(alloc: Global, tokens: &Tokens) -> Result<File, Fail>
    requires few { length tokens.now.list < 2 ^ 31 }
    ensures found { IfOk result (λ file. IsFile 256 tokens.now.list file) }
    // A file that the tokens spell is found, and so they spell one at most.
    ensures only { (file : TheFile) → IsFile 256 tokens.now.list file → IsOkUnlessMemory result (λ found. found ≡ file) }
    ensures refused { IfRefused result (IsFileRefusal tokens.now.list tokens.now.last) }
{
    reads_files();
    reading(alloc, tokens)
}
