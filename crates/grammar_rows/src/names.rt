// What the rules of names answer, in the words of rows.

use crate::answers::{read, refusal_of, tokens_of};
use cm_base::{Fail, Name};
use cm_tree::{Decl, File, TokenKind, Tokens, Word};
use declaration_walk::walk_patch;
use name_scopes::{Scopes, check_apart, check_unit};
use scope_walk::{Part, Step};
use std::alloc::{AllocError, Global};

/// The files of a text: one.
fn files_of(alloc: Global, bytes: &[u8]) -> Result<Vec<File>, Fail> {
    let tokens = tokens_of(alloc, bytes)?;
    let file = read(alloc, &tokens)?;
    let mut files = Vec::new(alloc);
    files.push(file)?;
    Ok(files)
}

/// `apart`, or the cause and the place of a refusal.
fn apart_text(alloc: Global, found: &Result<(), Fail>) -> Result<String, AllocError> {
    match found {
        Ok(()) => String::from_str(alloc, "apart"),
        Err(fail) => refusal_of(alloc, fail),
    }
}

fn build(alloc: Global, bytes: &[u8]) -> Result<(), Fail> {
    let files = files_of(alloc, bytes)?;
    match Scopes::build(alloc, files.as_slice()) {
        Ok(_scopes) => Ok(()),
        Err(fail) => Err(fail),
    }
}

/// `apart` where no name stands twice in a namespace, a processor or a graph of the file, and else the cause and the place of
/// its refusal.
pub fn names_answer(alloc: Global, bytes: &[u8]) -> Result<String, AllocError> {
    let found = build(alloc, bytes);
    apart_text(alloc, &found)
}

/// The processors and graphs among declarations, each by itself.
fn check_decls(alloc: Global, decls: &[Decl]) -> Result<(), Fail> {
    for decl in decls {
        match decl {
            Decl::Processor(unit) | Decl::Graph(unit) => check_unit(alloc, unit)?,
            Decl::Namespace(_, _, _) | Decl::Shared(_) | Decl::Function(_) => {}
        }
    }
    Ok(())
}

fn check_files(alloc: Global, bytes: &[u8]) -> Result<(), Fail> {
    let files = files_of(alloc, bytes)?;
    for file in &files {
        check_decls(alloc, file.decls.as_slice())?;
    }
    Ok(())
}

/// `apart` where no name stands twice in a processor or a graph that stands in no namespace.
pub fn units_answer(alloc: Global, bytes: &[u8]) -> Result<String, AllocError> {
    let found = check_files(alloc, bytes);
    apart_text(alloc, &found)
}

/// The names among tokens.
fn words_of(alloc: Global, tokens: &Tokens) -> Result<Vec<Word>, AllocError> {
    let mut words = Vec::new(alloc);
    for token in tokens.list.as_slice() {
        if let TokenKind::Word(name) = &token.kind {
            words.push(Word {
                place: token.place,
                text: Name::from_str(alloc, name.as_str())?,
            })?;
        }
    }
    Ok(words)
}

fn check_words(alloc: Global, bytes: &[u8]) -> Result<(), Fail> {
    let tokens = tokens_of(alloc, bytes)?;
    let words = words_of(alloc, &tokens)?;
    check_apart(alloc, words.as_slice())
}

/// `apart` where no two names among the tokens of the text are the same.
pub fn words_answer(alloc: Global, bytes: &[u8]) -> Result<String, AllocError> {
    let found = check_words(alloc, bytes);
    apart_text(alloc, &found)
}

/// The letter of a place with a rule.
fn part_letter(part: &Part<'_>) -> char {
    match part {
        Part::Reads(_) => 'r',
        Part::Calls(_, _) => 'c',
        Part::TakesArgument(_) => 'a',
        Part::NamesType(_) => 't',
        Part::Writes(_) => 'w',
        Part::Assigns(_) => '=',
        Part::HasFields(_) => 's',
        Part::Defines(_) => 'f',
        Part::Handles(_) => 'h',
        Part::DeclaresNode(_) => 'n',
        Part::Joins(_) => 'o',
        Part::Jumps(_) => 'j',
        Part::Advances(_) => 'v',
    }
}

/// The letter of a step.
fn letter(step: &Step<'_>) -> char {
    match step {
        Step::Meet(part) => part_letter(part),
        Step::MeetParam(_) | Step::MeetParams(_) => 'p',
        Step::MeetUnit => 'u',
        Step::MeetLocal(_, _, _) | Step::MeetCounter(_, _) => 'l',
        Step::MeetGiven(_, _, _) => 'g',
        Step::Enter => '{',
        Step::Leave => '}',
        Step::Declare(_, _) => 'd',
        Step::EnterUnit(_, _) => '[',
        Step::LeaveUnit => ']',
        Step::EnterSpace(_) => '<',
        Step::LeaveSpace => '>',
        Step::EnterLoop => '(',
        Step::LeaveLoop => ')',
        Step::EnterText(_, _) => ':',
        Step::LeaveText => ';',
    }
}

/// The letters of the steps of the walk over files, or `none`.
fn letters(alloc: Global, files: &[File]) -> Result<String, AllocError> {
    let steps = walk_patch(alloc, files)?;
    let mut line = String::new(alloc);
    for step in steps.as_slice() {
        line.push(letter(step))?;
    }
    if line.is_empty() {
        line.push_str("none")?;
    }
    Ok(line)
}

/// The letters of the steps of the walk over the file.
pub fn steps_answer(alloc: Global, bytes: &[u8]) -> Result<String, AllocError> {
    match files_of(alloc, bytes) {
        Ok(files) => letters(alloc, files.as_slice()),
        Err(fail) => refusal_of(alloc, &fail),
    }
}
