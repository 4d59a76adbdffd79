//! Laws of whole runs, in `proofs/`: where each call of a module keeps a part of a source, the module keeps the
//! source's runs, also those that are stopped and resumed. `specs/Follows` says when one player does what another
//! does, part by part, `specs/Calling` and `specs/Blocks` what the code of a module owes for each call, and
//! `proofs/Runs` has the one induction, which serves both directions. The layer above cites `proofs/Singles` for
//! modules of interface 1 and `proofs/BlockRuns` for those of interface 2. The laws hold for every source, which
//! no contract of a function can say, so this crate has no functions.
#![tactic(auto)]
