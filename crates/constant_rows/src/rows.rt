use crate::constants::constant_answer;
use crate::declared::declare;
use crate::halt::{Halt, Slip};
use crate::names::Names;
use crate::operations::operation_answer;
use crate::rules::rule_answer;
use crate::words::first;
use std::alloc::{AllocError, Global};

/// The names that are declared above a line, and counts of the rows so far.
#[derive(Drop)]
pub struct Rows {
    names: Names,
    line: u64,
    count: u64,
    differing: u64,
}

/// The answer of a row.
fn answer_of(alloc: Global, names: &Names, row: &str) -> Result<String, Halt> {
    let (word, text) = first(row)?;
    if let Some(answer) = rule_answer(alloc, names, word, text)? {
        return Ok(answer);
    }
    if let Some(answer) = operation_answer(alloc, names, word, text)? {
        return Ok(answer);
    }
    match constant_answer(alloc, names, word, text)? {
        Some(answer) => Ok(answer),
        None => Err(Halt::Slip(Slip::Line)),
    }
}

impl Rows {
    pub fn new(alloc: Global) -> Rows {
        Rows {
            names: Names::new(alloc),
            line: 0,
            count: 0,
            differing: 0,
        }
    }

    /// How many rows were answered.
    pub fn count(&self) -> u64 {
        self.count
    }

    /// How many answers and lines weren't right.
    pub fn differing(&self) -> u64 {
        self.differing
    }

    /// Tells that a line isn't right.
    fn slipped(&mut self, alloc: Global, halt: Halt) -> Result<Option<String>, AllocError> {
        match halt {
            Halt::Slip(slip) => {
                self.differing = self.differing.saturating_add(1);
                let line = self.line;
                Ok(Some(format!(in alloc; "line {line} isn't right: {slip:?}")?))
            }
            Halt::NoMemory => Err(AllocError),
        }
    }

    /// Compares an answer with those that are expected, which have ` or ` between them.
    fn compare(
        &mut self,
        alloc: Global,
        expected: &str,
        answer: &str,
    ) -> Result<Option<String>, AllocError> {
        if expected.split(" or ").any(|one| one == answer) {
            return Ok(None);
        }
        self.differing = self.differing.saturating_add(1);
        let line = self.line;
        Ok(Some(format!(in alloc; "line {line}: expected {expected} got {answer}")?))
    }

    /// Answers a row, as `scalars int32[2] = 2`.
    fn take_row(&mut self, alloc: Global, line: &str) -> Result<Option<String>, AllocError> {
        let Some((row, expected)) = line.rsplit_once(" = ") else {
            return self.slipped(alloc, Halt::Slip(Slip::Line));
        };
        self.count = self.count.saturating_add(1);
        match answer_of(alloc, &self.names, row) {
            Ok(answer) => self.compare(alloc, expected, answer.as_str()),
            Err(halt) => self.slipped(alloc, halt),
        }
    }

    /// Reads a line: it declares a name, forgets all names, is a row, or is empty or a comment. Where the answer of a row is
    /// another one than it expects, or the line is none of these, this gives a text that tells it.
    pub fn take_line(&mut self, alloc: Global, line: &str) -> Result<Option<String>, AllocError> {
        self.line = self.line.saturating_add(1);
        if line.is_empty() || line.starts_with('#') {
            return Ok(None);
        }
        if line == "forget" {
            self.names = Names::new(alloc);
            return Ok(None);
        }
        match declare(alloc, &mut self.names, line) {
            Ok(true) => Ok(None),
            Ok(false) => self.take_row(alloc, line),
            Err(halt) => self.slipped(alloc, halt),
        }
    }
}
