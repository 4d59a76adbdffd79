// Refusals in the words of rows.

use cm_base::{Fail, FormFail};
use std::alloc::{AllocError, Global};

/// The rule, the part and the index of a refusal, as `Shape Streams 1`.
pub fn form_fail_text(alloc: Global, fail: &FormFail) -> Result<String, AllocError> {
    match fail {
        FormFail::Refused(fault) => {
            let (rule, part, index) = (fault.rule, fault.part, fault.index);
            format!(in alloc; "{rule:?} {part:?} {index}")
        }
        FormFail::NoMemory => String::from_str(alloc, "no memory"),
    }
}

/// The cause of a refusal; with its place where that isn't line 0, column 0 of file 0, and with the count of a cycle's
/// leaves where there is one.
pub fn fail_text(alloc: Global, fail: &Fail) -> Result<String, AllocError> {
    match fail {
        Fail::Refused(refused) => {
            let (cause, place) = (refused.cause, refused.place);
            let mut line = format!(in alloc; "{cause:?}")?;
            if place.file != 0 || place.line != 0 || place.column != 0 {
                let (file, at, column) = (place.file, place.line, place.column);
                write!(line, " {file}:{at}:{column}")?;
            }
            if !refused.cycle.is_empty() {
                let count = refused.cycle.len();
                write!(line, " of {count}")?;
            }
            Ok(line)
        }
        Fail::NoMemory => String::from_str(alloc, "no memory"),
    }
}
