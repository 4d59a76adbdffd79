// Rows and the answers that are expected of them.

use crate::row::Row;
use cm_base::NoMemory;
use std::alloc::{AllocError, Global};

/// The row that is read, and counts of the rows so far.
#[derive(Drop)]
pub struct Rows {
    row: Row,
    line: u64,
    count: u64,
    differing: u64,
}

impl Rows {
    pub fn new(alloc: Global) -> Rows {
        Rows {
            row: Row::new(alloc),
            line: 0,
            count: 0,
            differing: 0,
        }
    }

    /// How many rows there were.
    pub fn count(&self) -> u64 {
        self.count
    }

    /// How many answers and lines weren't right.
    pub fn differing(&self) -> u64 {
        self.differing
    }

    /// Compares an answer with those that are expected, which have ` or ` between them.
    fn compare(
        &mut self,
        alloc: Global,
        expected: &str,
        answer: &str,
    ) -> Result<Option<String>, AllocError> {
        if expected.split(" or ").any(|one| one == answer) {
            return Ok(None);
        }
        self.differing = self.differing.saturating_add(1);
        let line = self.line;
        Ok(Some(format!(in alloc; "line {line}: expected {expected} got {answer}")?))
    }

    /// Asks what a line asks, and compares the answer with what stands behind ` = `, or with nothing. What no answer comes to
    /// is passed over.
    fn ask(&mut self, alloc: Global, line: &str) -> Result<Option<String>, NoMemory> {
        let (asked, expected) = line.split_once(" = ").unwrap_or((line, ""));
        let (word, rest) = asked.split_once(' ').unwrap_or((asked, ""));
        match self.row.answer(alloc, word, rest)? {
            Some(answer) => Ok(self.compare(alloc, expected, answer.as_str())?),
            None => Ok(None),
        }
    }

    /// Reads a line: it begins a row, asks for something, or is empty or a comment. Where the answer isn't the one that is
    /// expected, this gives a text that tells it.
    pub fn take_line(&mut self, alloc: Global, line: &str) -> Result<Option<String>, NoMemory> {
        self.line = self.line.saturating_add(1);
        if line.is_empty() || line.starts_with('#') {
            return Ok(None);
        }
        if line.starts_with("row ") {
            self.count = self.count.saturating_add(1);
            self.row = Row::new(alloc);
            return Ok(None);
        }
        self.ask(alloc, line)
    }
}
