use cm_base::NoMemory;
use std::alloc::{AllocError, AllocFailed};
use wasm_tree::ModuleRule;

/// What holds the part of a module that breaks a rule: a section by what it lists, the section `cmajor`, or, where there are
/// more of them, the second. Or something is missing.
#[derive(Clone, Copy, Debug, PartialEq, Eq)]
pub enum Part {
    Types,
    Imports,
    Functions,
    Memories,
    Globals,
    Exports,
    Codes,
    Segments,
    Cmajor,
    SecondCmajor,
    Missing,
}

/// Why a check of a module fails.
#[derive(Clone, Copy, Debug, PartialEq, Eq)]
pub enum Broken {
    /// The part breaks the rule.
    Rule(ModuleRule, Part),
    NoMemory,
}

impl From<NoMemory> for Broken {
    ghost use Rattle.std.specs.Prelude.{◌≡◌};
    ghost use Rattle.wasm_valid.specs.declared.broken.Broken.TheVariants.{NoMemory as LacksMemory};

    ghost from_gives = { λ _ e. e ≡ LacksMemory };

    fn from(_error: NoMemory) -> Broken {
        Broken::NoMemory
    }
}

impl From<AllocError> for Broken {
    ghost use Rattle.std.specs.Prelude.{◌≡◌};
    ghost use Rattle.wasm_valid.specs.declared.broken.Broken.TheVariants.{NoMemory as LacksMemory};

    ghost from_gives = { λ _ e. e ≡ LacksMemory };

    fn from(_error: AllocError) -> Broken {
        Broken::NoMemory
    }
}

impl<T: Drop> From<AllocFailed<T>> for Broken {
    ghost use Rattle.std.specs.Prelude.{◌≡◌};
    ghost use Rattle.wasm_valid.specs.declared.broken.Broken.TheVariants.{NoMemory as LacksMemory};

    ghost from_gives = { λ _ e. e ≡ LacksMemory };

    fn from(_error: AllocFailed<T>) -> Broken {
        Broken::NoMemory
    }
}
