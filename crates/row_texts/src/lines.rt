// The text of a row.

use crate::series::{counted, numbered, numbers};
use std::alloc::{AllocError, Global};

/// The bytes of a text that is written line by line.
#[derive(Drop)]
pub struct Text {
    bytes: Vec<u8>,
    is_begun: bool,
}

impl Text {
    /// An empty text, in which no line has begun.
    pub fn new(alloc: Global) -> Text {
        Text {
            bytes: Vec::new(alloc),
            is_begun: false,
        }
    }

    /// The bytes so far.
    pub fn as_bytes(&self) -> &[u8] {
        self.bytes.as_slice()
    }

    fn push_str(&mut self, text: &str) -> Result<(), AllocError> {
        self.bytes.extend_from_slice(text.as_bytes())
    }

    /// Appends a line, with a line feed between it and what stands before.
    fn push_line(&mut self, line: &str) -> Result<(), AllocError> {
        if self.is_begun {
            self.bytes.push(b'\n')?;
        }
        self.is_begun = true;
        self.push_str(line)
    }

    /// Appends a text so many times, as `250 (`.
    fn push_repeated(&mut self, text: &str) -> Result<bool, AllocError> {
        let Some((count, piece)) = counted(text) else {
            return Ok(false);
        };
        self.is_begun = true;
        for _ in 0..count {
            self.push_str(piece)?;
        }
        Ok(true)
    }

    /// Appends a text so many times, with the number of the time for each `@`, as `3 [@,"in",1],`.
    fn push_series(&mut self, alloc: Global, text: &str) -> Result<bool, AllocError> {
        let Some((count, piece)) = counted(text) else {
            return Ok(false);
        };
        self.is_begun = true;
        for number in 0..count {
            let one = numbered(alloc, piece, number)?;
            self.push_str(one.as_str())?;
        }
        Ok(true)
    }

    /// Appends bytes that are written as decimal numbers, so many times.
    fn push_filled(&mut self, alloc: Global, count: u32, text: &str) -> Result<bool, AllocError> {
        let Some(bytes) = numbers(alloc, text)? else {
            return Ok(false);
        };
        self.is_begun = true;
        for _ in 0..count {
            self.bytes.extend_from_slice(&bytes)?;
        }
        Ok(true)
    }

    /// Appends bytes so many times, as `3 0 255`.
    fn push_counted(&mut self, alloc: Global, text: &str) -> Result<bool, AllocError> {
        match counted(text) {
            Some((count, numbers)) => self.push_filled(alloc, count, numbers),
            None => Ok(false),
        }
    }

    /// Appends what a line of rows says, and tells whether it says something of a text: `| LINE`, or `|` alone for an empty
    /// line; `repeat COUNT TEXT`; `series COUNT TEXT`; `fill COUNT NUMBER..`; `bytes NUMBER..`. Any other line, and one whose
    /// count or numbers aren't such, changes no byte. It fails for want of memory alone.
    pub fn take_line(&mut self, alloc: Global, line: &str) -> Result<bool, AllocError> {
        if line == "|" {
            self.push_line("")?;
            return Ok(true);
        }
        if let Some(text) = line.strip_prefix("| ") {
            self.push_line(text)?;
            return Ok(true);
        }
        if let Some(text) = line.strip_prefix("repeat ") {
            return self.push_repeated(text);
        }
        if let Some(text) = line.strip_prefix("series ") {
            return self.push_series(alloc, text);
        }
        if let Some(text) = line.strip_prefix("fill ") {
            return self.push_counted(alloc, text);
        }
        match line.strip_prefix("bytes ") {
            Some(text) => self.push_filled(alloc, 1, text),
            None => Ok(false),
        }
    }
}
