use graph_search::SearchFail;
use std::alloc::{AllocError, AllocFailed};

/// Why a test of a program's parts ends early: memory ran out, or some don't fit together.
#[derive(Debug, Drop)]
pub enum Misfit {
    NoMemory,
    Apart,
}

impl From<AllocError> for Misfit {
    fn from(_error: AllocError) -> Misfit {
        Misfit::NoMemory
    }
}

impl<T: Drop> From<AllocFailed<T>> for Misfit {
    fn from(_error: AllocFailed<T>) -> Misfit {
        Misfit::NoMemory
    }
}

impl From<SearchFail> for Misfit {
    fn from(fail: SearchFail) -> Misfit {
        match fail {
            SearchFail::Cycle(_cycle) => Misfit::Apart,
            SearchFail::NoMemory => Misfit::NoMemory,
        }
    }
}
