//! Input scripts: what a host gives in a run (docs/COMMANDS.md, "Input script"). The layers above use the contract of
//! `read_script`: it gives the script that `script_in` of `specs/Script` says, or refuses the file with the first rule
//! that fails by it, the part and the index. The script belongs to the endpoints and is within the limits of a file:
//! `IsScript` of `cm_base/specs/Scripts`.
#![tactic(auto)]

mod at;
mod inputs;
mod script;
mod settings;
mod streams;
mod values;

pub use script::read_script;
