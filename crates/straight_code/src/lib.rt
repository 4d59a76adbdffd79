//! Straight code: instructions that go on with what follows them, so that they open and end no sequence, branch nowhere
//! and call nothing. `specs/Straight` has its words, and `proofs/` how such code is put together, which the crates that
//! emit code cite; `straight_code_stands` says where it stands among other code.
#![tactic(auto)]

mod laws;

pub use laws::straight_code_stands;
