//! Runs modules on cells of 64 bits and marks. `Runner` is an instance of a valid module: `start` takes all memory that
//! its calls need, by the two bounds that validation gives, and so does `resume`, which begins with the memory and the
//! mutable globals of a snapshot that `fits` the module. `call` calls what the module exports, `call_named` the function
//! that is exported under a name, and `call_number` one by its number. Their contract is the reduction of wasm_tree (`exec`
//! from `call_of`), reduction by reduction and within a budget, with the host asked call after call (`Follows` of
//! `specs/Following`), and where the call is done the globals and the memory are those that the reduction leaves.
//! `read_slot` and `write_slot` are the reads and writes of `Slots` of wasm_tree. Below it `run` goes from
//! function to function (`enter_function`, `leave_function`, `ask`), and `run_code` through the code of one; `take_step`
//! is one reduction of the next instruction, or a constant, which costs none; the functions of `stack` do what it needs
//! of cells, those of `number` and `memory` are the operators, loads and stores of `Meaning`. `prepare` finds once where
//! control goes from each place of flat code. Cells and marks stand for a typed configuration that has room
//! (`specs/Standing`, `Sound` of wasm_sound).
#![tactic(auto)]

mod begin;
mod call;
mod calls;
mod code;
mod export;
mod function;
mod host;
mod instance;
mod jump;
mod kept;
mod memory;
mod number;
mod place;
mod prepare;
mod reduce;
mod run;
mod runner;
mod slots;
mod snapshot;
mod stack;
mod step;

pub use export::Export;
pub use host::{Ended, Host, HostAnswer};
pub use runner::Runner;
pub use snapshot::fits;
