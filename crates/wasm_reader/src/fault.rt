ghost use Rattle.std.specs.Prelude.{◌≡◌};
ghost use Rattle.wasm_reader.specs.declared.fault.ReadFail.TheVariants as the_fail;
ghost use Rattle.wasm_reader.specs.Reading.{at as fault_at, outside_of};

use std::alloc::{AllocError, AllocFailed};
use wasm_tree::ModuleRule;

/// A rule that fails, and how many bytes there are from the byte at which it fails to the end.
#[derive(Clone, Copy, Debug, PartialEq, Eq)]
pub struct Fault {
    pub rule: ModuleRule,
    pub left: usize,
}

/// Why a part isn't read.
#[derive(Debug, Drop)]
pub enum ReadFail {
    Fault(Fault),
    NoMemory,
}

impl From<AllocError> for ReadFail {
    ghost from_gives = { λ _ e. e ≡ the_fail.NoMemory };

    fn from(_error: AllocError) -> ReadFail {
        ReadFail::NoMemory
    }
}

impl<T: Drop> From<AllocFailed<T>> for ReadFail {
    ghost from_gives = { λ _ e. e ≡ the_fail.NoMemory };

    fn from(_error: AllocFailed<T>) -> ReadFail {
        ReadFail::NoMemory
    }
}

/// The rule fails where so many bytes are left.
pub fn at(rule: ModuleRule, left: usize) -> ReadFail
    ensures { result ≡ the_fail.Fault (fault_at rule left) }
{
    ReadFail::Fault(Fault { rule, left })
}

/// The fault counted to the end of the bytes that the contents are the front of.
pub fn outside(fail: ReadFail, contents: usize, whole: usize) -> ReadFail
    ensures { result ≡ outside_of contents whole fail }
{
    match fail {
        ReadFail::NoMemory => ReadFail::NoMemory,
        ReadFail::Fault(fault) => at(
            fault.rule,
            whole.saturating_sub(contents.saturating_sub(fault.left)),
        ),
    }
}
