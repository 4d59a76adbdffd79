//! Tables of worked rows for the reader and the writer of modules: bytes that other programs made or that were
//! worked out by hand from the Core Specification, beside the module, the refusal or the number that they stand
//! for. Tests alone, over the public calls of `wasm_reader` and `wasm_writer`: nothing is built on this crate. It
//! stands beside both, since a crate is proved a second time with its tests.
#![tactic(auto)]

#[cfg(test)]
mod modules;
#[cfg(test)]
mod numbers;
#[cfg(test)]
mod refusals;
#[cfg(test)]
mod section;
