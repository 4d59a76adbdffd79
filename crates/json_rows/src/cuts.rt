// What the beginnings of a text are answered, in the words of rows.

ghost use Rattle.cm_base.specs.HostEnds.{IsLawful};

use crate::manifests::manifest_answer;
use crate::scripts::script_answer;
use crate::states::state_answer;
use cm_base::HostEnds;
use std::alloc::{AllocError, Global};

/// Answers one after another, of which equal ones are counted.
#[derive(Drop)]
struct Answers {
    line: String,
    last: String,
    count: u64,
}

impl Answers {
    fn new(alloc: Global) -> Answers {
        Answers {
            line: String::new(alloc),
            last: String::new(alloc),
            count: 0,
        }
    }

    /// Writes the last answer with its count.
    fn end_run(&mut self) -> Result<(), AllocError> {
        let count = self.count;
        if count == 0 {
            return Ok(());
        }
        if !self.line.is_empty() {
            self.line.push_str(", ")?;
        }
        self.line.push_str(self.last.as_str())?;
        self.count = 0;
        write!(self.line, " *{count}")
    }

    fn push(&mut self, answer: String) -> Result<(), AllocError> {
        if self.count == 0 || self.last.as_str() != answer.as_str() {
            self.end_run()?;
            self.last = answer;
        }
        self.count = self.count.saturating_add(1);
        Ok(())
    }

    fn into_line(mut self) -> Result<String, AllocError> {
        self.end_run()?;
        Ok(self.line)
    }
}

/// What each shorter beginning of a script is answered, as `Json Whole 0 *12`.
pub fn script_cuts(alloc: Global, bytes: &[u8], host: &HostEnds) -> Result<String, AllocError>
    requires { IsLawful host.now }
{
    let mut answers = Answers::new(alloc);
    for length in 0..bytes.len() {
        answers.push(script_answer(alloc, &bytes[..length], host)?)?;
    }
    answers.into_line()
}

/// What each shorter beginning of a state file is answered.
pub fn state_cuts(alloc: Global, bytes: &[u8]) -> Result<String, AllocError> {
    let mut answers = Answers::new(alloc);
    for length in 0..bytes.len() {
        answers.push(state_answer(alloc, &bytes[..length])?)?;
    }
    answers.into_line()
}

/// What each shorter beginning of a manifest is answered.
pub fn manifest_cuts(alloc: Global, bytes: &[u8]) -> Result<String, AllocError> {
    let mut answers = Answers::new(alloc);
    for length in 0..bytes.len() {
        answers.push(manifest_answer(alloc, &bytes[..length])?)?;
    }
    answers.into_line()
}
