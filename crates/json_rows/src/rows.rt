// Rows of texts and the answers that are expected of them.

ghost use Rattle.cm_base.specs.HostEnds.{IsLawful};

use crate::ends::end_of;
use crate::lawful::are_lawful;
use crate::reports::reply;
use cm_base::HostEnds;
use row_texts::{Text, counted, numbered};
use std::alloc::{AllocError, Global};

/// The endpoints that are declared, the text of the row that is read, and counts of the rows so far.
#[derive(Drop)]
pub struct Rows {
    host: HostEnds,
    text: Text,
    line: u64,
    count: u64,
    differing: u64,
}

impl Rows {
    pub fn new(alloc: Global) -> Rows {
        Rows {
            host: HostEnds::new(alloc),
            text: Text::new(alloc),
            line: 0,
            count: 0,
            differing: 0,
        }
    }

    /// How many rows were answered.
    pub fn count(&self) -> u64 {
        self.count
    }

    /// How many answers and lines weren't right.
    pub fn differing(&self) -> u64 {
        self.differing
    }

    /// Compares an answer with those that are expected, which have ` or ` between them.
    fn compare(
        &mut self,
        alloc: Global,
        expected: &str,
        answer: &str,
    ) -> Result<Option<String>, AllocError> {
        if expected.split(" or ").any(|one| one == answer) {
            return Ok(None);
        }
        self.differing = self.differing.saturating_add(1);
        let line = self.line;
        Ok(Some(format!(in alloc; "line {line}: expected {expected} got {answer}")?))
    }

    /// The answer that a word asks for, if it ends a row.
    fn answer(&self, alloc: Global, word: &str) -> Result<Option<String>, AllocError> {
        if are_lawful(&self.host) {
            reply(alloc, word, self.text.as_bytes(), &self.host)
        } else {
            Ok(Some(String::from_str(alloc, "endpoints that no patch has")?))
        }
    }

    /// Ends a row.
    fn end(&mut self, alloc: Global) {
        self.count = self.count.saturating_add(1);
        self.text = Text::new(alloc);
    }

    /// Adds an endpoint, if the text declares one, and tells whether it does.
    fn declare(&mut self, alloc: Global, text: &str) -> Result<bool, AllocError> {
        match end_of(alloc, text)? {
            Some(end) => {
                self.host.push(end)?;
                Ok(true)
            }
            None => Ok(false),
        }
    }

    /// Adds endpoints so many times, with the number of the time for each `@`, and tells whether the text declares them.
    fn declare_series(&mut self, alloc: Global, text: &str) -> Result<bool, AllocError> {
        let Some((count, piece)) = counted(text) else {
            return Ok(false);
        };
        for number in 0..count {
            let one = numbered(alloc, piece, number)?;
            if !self.declare(alloc, one.as_str())? {
                return Ok(false);
            }
        }
        Ok(true)
    }

    /// Reads what isn't the end of a row, and tells whether it is a line of rows.
    fn add_line(&mut self, alloc: Global, line: &str) -> Result<bool, AllocError> {
        if line == "host" {
            self.host = HostEnds::new(alloc);
            return Ok(true);
        }
        if let Some(text) = line.strip_prefix("end ") {
            return self.declare(alloc, text);
        }
        match line.strip_prefix("ends ") {
            Some(text) => self.declare_series(alloc, text),
            None => self.text.take_line(alloc, line),
        }
    }

    /// Reads a line: it adds an endpoint, adds to the text of a row, ends the row by the answer that is expected, or is
    /// empty or a comment. Where the answer is another one, or the line none of these, this gives a text that tells it.
    pub fn take_line(&mut self, alloc: Global, line: &str) -> Result<Option<String>, AllocError> {
        self.line = self.line.saturating_add(1);
        if line.is_empty() || line.starts_with('#') {
            return Ok(None);
        }
        if self.add_line(alloc, line)? {
            return Ok(None);
        }
        let (word, expected) = line.split_once(' ').unwrap_or((line, ""));
        match self.answer(alloc, word)? {
            Some(answer) => {
                self.end(alloc);
                self.compare(alloc, expected, answer.as_str())
            }
            None => self.compare(alloc, "a line of rows", line),
        }
    }
}
