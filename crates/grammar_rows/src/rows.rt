// Rows of texts and the answers that are expected of them.

use crate::answers::{expression_answer, extent_answer, file_answer, tokens_answer};
use crate::names::{names_answer, steps_answer, units_answer, words_answer};
use row_texts::Text;
use std::alloc::{AllocError, Global};

/// The answer of a row of tokens, files and expressions, and what is expected, where the line ends one.
fn answered_text<'a>(
    alloc: Global,
    line: &'a str,
    bytes: &[u8],
) -> Result<Option<(&'a str, String)>, AllocError> {
    if let Some(expected) = line.strip_prefix("= ") {
        return Ok(Some((expected, file_answer(alloc, bytes)?)));
    }
    if let Some(expected) = line.strip_prefix("tokens ") {
        return Ok(Some((expected, tokens_answer(alloc, bytes)?)));
    }
    if let Some(expected) = line.strip_prefix("expr ") {
        return Ok(Some((expected, expression_answer(alloc, bytes)?)));
    }
    if let Some(expected) = line.strip_prefix("extent ") {
        return Ok(Some((expected, extent_answer(alloc, bytes)?)));
    }
    Ok(None)
}

/// The answer of a row of names, and what is expected, where the line ends one.
fn answered_names<'a>(
    alloc: Global,
    line: &'a str,
    bytes: &[u8],
) -> Result<Option<(&'a str, String)>, AllocError> {
    if let Some(expected) = line.strip_prefix("names ") {
        return Ok(Some((expected, names_answer(alloc, bytes)?)));
    }
    if let Some(expected) = line.strip_prefix("units ") {
        return Ok(Some((expected, units_answer(alloc, bytes)?)));
    }
    if let Some(expected) = line.strip_prefix("words ") {
        return Ok(Some((expected, words_answer(alloc, bytes)?)));
    }
    if let Some(expected) = line.strip_prefix("steps ") {
        return Ok(Some((expected, steps_answer(alloc, bytes)?)));
    }
    Ok(None)
}

/// The text of the row that is read, and counts of the rows so far.
#[derive(Drop)]
pub struct Rows {
    text: Text,
    line: u64,
    count: u64,
    differing: u64,
}

impl Rows {
    pub fn new(alloc: Global) -> Rows {
        Rows {
            text: Text::new(alloc),
            line: 0,
            count: 0,
            differing: 0,
        }
    }

    /// How many rows were answered.
    pub fn count(&self) -> u64 {
        self.count
    }

    /// How many answers and lines weren't right.
    pub fn differing(&self) -> u64 {
        self.differing
    }

    /// Compares an answer with those that are expected, which have ` or ` between them.
    fn compare(
        &mut self,
        alloc: Global,
        expected: &str,
        answer: &str,
    ) -> Result<Option<String>, AllocError> {
        if expected.split(" or ").any(|one| one == answer) {
            return Ok(None);
        }
        self.differing = self.differing.saturating_add(1);
        let line = self.line;
        Ok(Some(format!(in alloc; "line {line}: expected {expected} got {answer}")?))
    }

    /// Ends a row.
    fn end(&mut self, alloc: Global) {
        self.count = self.count.saturating_add(1);
        self.text = Text::new(alloc);
    }

    /// Reads a line: it adds to the text of a row, ends the row by the answer that is expected, or is empty or a comment. Where
    /// the answer is another one, or the line none of these, this gives a text that tells it.
    pub fn take_line(&mut self, alloc: Global, line: &str) -> Result<Option<String>, AllocError> {
        self.line = self.line.saturating_add(1);
        if line.is_empty() || line.starts_with('#') {
            return Ok(None);
        }
        if let Some((expected, answer)) = answered_text(alloc, line, self.text.as_bytes())? {
            self.end(alloc);
            return self.compare(alloc, expected, answer.as_str());
        }
        if let Some((expected, answer)) = answered_names(alloc, line, self.text.as_bytes())? {
            self.end(alloc);
            return self.compare(alloc, expected, answer.as_str());
        }
        if self.text.take_line(alloc, line)? {
            return Ok(None);
        }
        self.compare(alloc, "a line of rows", line)
    }
}
