//! Instances of modules that anyone may try. Each call of a `Trial` tests what the call of `Runner` below it requires: that
//! the calls so far returned, that the module exports what is called, that the slot has the entry, that the values are of the
//! endpoint's shape, and that a snapshot fits. Where a test fails nothing is done, and `None` says so.
#![tactic(auto)]

mod ends;
mod offers;
mod trial;

pub use trial::Trial;
