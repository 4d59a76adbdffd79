// A row of a module: what it has so far, and what is answered to each of its words.

use crate::modules::module_answer;
use crate::words::{bytes_of, told};
use cm_base::NoMemory;
use row_texts::counted;
use std::alloc::Global;

/// What a row has so far: the bytes of its module.
#[derive(Drop)]
pub struct Row {
    bytes: Vec<u8>,
}

impl Row {
    /// A row without bytes.
    pub fn new(alloc: Global) -> Row {
        Row {
            bytes: Vec::new(alloc),
        }
    }

    /// Adds bytes so many times.
    fn add(&mut self, alloc: Global, count: u32, digits: &str) -> Result<Option<String>, NoMemory> {
        let Some(bytes) = bytes_of(alloc, digits)? else {
            return Ok(None);
        };
        for _ in 0..count {
            self.bytes.extend_from_slice(bytes.as_slice())?;
        }
        told(alloc, "")
    }

    /// Adds bytes so many times, as `4096 0240` says.
    fn repeat(&mut self, alloc: Global, text: &str) -> Result<Option<String>, NoMemory> {
        match counted(text) {
            Some((count, digits)) => self.add(alloc, count, digits),
            None => Ok(None),
        }
    }

    /// What is answered to a word that is asked with this text behind it, if it is one on the module.
    pub fn answer(
        &mut self,
        alloc: Global,
        word: &str,
        rest: &str,
    ) -> Result<Option<String>, NoMemory> {
        if word == "wasm" {
            return self.add(alloc, 1, rest);
        }
        if word == "repeat" {
            return self.repeat(alloc, rest);
        }
        module_answer(alloc, self.bytes.as_slice(), word, rest)
    }
}
