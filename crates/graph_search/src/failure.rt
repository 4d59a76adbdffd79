use crate::Indices;
use std::alloc::AllocError;
use thiserror::Error;

/// Why a search gives no result. The nodes of a cycle are distinct, and an edge leads from each to the next
/// and from the last to the first.
#[derive(Debug, Drop, Error)]
pub enum SearchFail {
    #[error("a cycle")]
    Cycle(Indices),
    #[error("out of memory")]
    NoMemory,
}

impl From<AllocError> for SearchFail {
    ghost use Rattle.std.specs.Prelude.{◌≡◌};
    ghost use Rattle.graph_search.specs.declared.failure.SearchFail.TheVariants.{NoMemory};

    ghost from_gives = { λ _ e. e ≡ NoMemory };

    fn from(_error: AllocError) -> SearchFail {
        SearchFail::NoMemory
    }
}
