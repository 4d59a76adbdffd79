//! The soundness of validation, in `specs/` and `proofs/`: Core Specification 1.0, appendix, "Soundness". `specs/Sound`
//! says when a configuration of the machine is typed, and `specs/Reached` where the calls of a module's exports come to and
//! within which bounds. `specs/Governed` is typing under rules on what may stand at each place that is reached, and
//! `proofs/Preserved` shows once for all rules that reductions keep them and aren't stuck. With the rooms of functions as
//! rules (`specs/Rooms`) that gives the bounds (`proofs/Reaching`). Validation and the runner stand on this crate, which
//! has no functions.
#![tactic(auto)]
