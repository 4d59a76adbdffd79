use std::alloc::{AllocError, AllocFailed};
use thiserror::Error;

/// The rule that a module's bytes break: docs/MODULE.md, "What is refused".
#[derive(Clone, Copy, Debug, PartialEq, Eq)]
pub enum ModuleRule {
    Header,
    Number,
    Section,
    Size,
    Opcode,
    Text,
    Index,
    Limit,
    Typing,
    CallCycle,
    Segment,
    Interface,
    Cmajor,
}

/// A rule that a module's bytes break, and the byte at which it fails, counted from 0.
#[derive(Clone, Copy, Debug, PartialEq, Eq)]
pub struct ModuleRefused {
    pub offset: u64,
    pub rule: ModuleRule,
}

/// Why a module isn't read or isn't valid.
#[derive(Debug, Drop, Error)]
pub enum ModuleFail {
    #[error("the module is refused")]
    Refused(ModuleRefused),
    #[error("out of memory")]
    NoMemory,
}

impl From<AllocError> for ModuleFail {
    ghost use Rattle.std.specs.Prelude.{◌≡◌};
    ghost use Rattle.wasm_tree.specs.declared.failure.ModuleFail.TheVariants.{NoMemory as LacksMemory};

    ghost from_gives = { λ _ e. e ≡ LacksMemory };

    fn from(_error: AllocError) -> ModuleFail {
        ModuleFail::NoMemory
    }
}

impl<T: Drop> From<AllocFailed<T>> for ModuleFail {
    ghost use Rattle.std.specs.Prelude.{◌≡◌};
    ghost use Rattle.wasm_tree.specs.declared.failure.ModuleFail.TheVariants.{NoMemory as LacksMemory};

    ghost from_gives = { λ _ e. e ≡ LacksMemory };

    fn from(_error: AllocFailed<T>) -> ModuleFail {
        ModuleFail::NoMemory
    }
}
