//! Specialised programs: a patch after names, constants and types are gone, with numbers for names. The front makes a
//! `Program`; the middle makes its `Flat`, the order of its leaves and its `Filled`, and lays it out; the back makes its
//! code. The crates above use the plain types of `src/`, the contract of `CoreType::is_same`, and the definitions of
//! `specs/`:
//!
//! - of graphs: when the parts of a program fit together (`Consistent`), its leaves (`Tree`), its connections
//!   (`Expanded`), its chains (`Routes`), and what is wrong with its graphs (`GraphFaults`);
//! - of code: the code of units as trees (`Code`), its types (`Types`, `Typing`, `Bodies`), what it calls and writes
//!   (`Uses`), and when a program is lawful (`Lawful`);
//! - of meanings: the state of a run (`World`), acts on it (`Acts`), operators and expressions (`Operators`, `Eval`),
//!   statements (`Resume`), what chains carry (`Linked`), calls and events (`Calls`), and whole runs (`CoreRun`);
//! - of all runs: what more turns and more depth change, which the laws of `laws` state (`Levels`, `Forward`, `Laws`);
//! - of sizes: of code (`Sizes`) and of programs (`Measures`).
#![tactic(auto)]

mod core_type;
mod expr;
mod filled;
mod flat;
mod laws;
mod link;
mod operator;
mod program;
mod stmt;
mod unit;

use cm_base::Items;
pub use core_type::{BaseType, CoreType, CoreTypes, StructType, Structs};
pub use expr::{CoreExpr, CoreExprs};
pub use filled::Filled;
pub use flat::{Chain, Chains, Flat, Leaf, Leaves, Point};
pub use laws::{
    depth_is_enough, more_turns, more_turns_in_a_part, returned_stays, sums_are_cleared,
    traces_grow,
};
pub use link::{Connection, Connections, Group, Groups, Link, Links, Side};
pub use operator::{BinaryOp, CountOp, LogicOp, UnaryOp};
pub use program::{Body, End, Ends, Node, Nodes, Program};
pub use stmt::{CoreStmt, CoreStmts, Declared, DeclaredLocals};
pub use unit::{
    Constant, Constants, Function, Functions, Handler, Handlers, Home, Local, Locals, Unit, Units,
    Var, Vars,
};

/// Numbers of elements, of frames or of leaves.
pub type Counts = Items<u32>;
