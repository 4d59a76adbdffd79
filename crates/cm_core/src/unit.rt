use crate::core_type::CoreType;
use crate::expr::CoreExpr;
use crate::program::Ends;
use crate::stmt::CoreStmt;
use cm_base::{Items, Scalars, Shape};

/// A variable of the state, or a parameter: its type, the scalars of the type, and the initial value where one is
/// written.
#[derive(Debug, Drop)]
pub struct Var {
    pub ty: CoreType,
    pub shape: Shape,
    pub first: Option<CoreExpr>,
}

pub type Vars = Items<Var>;

/// Where a local lives.
#[derive(Clone, Copy, Debug, PartialEq, Eq)]
pub enum Home {
    /// In the state, since it is needed after an `advance`: a local of `main`, or the count of one of its loops.
    Kept,
    /// In `init`, in `main` from one `advance` to the next, in a function or in a handler, by its number: such a
    /// local is zero whenever its body begins or goes on.
    Init,
    Main,
    Function(u32),
    Handler(u32),
}

/// A parameter of a function or handler, a local, or the count of a `loop`.
#[derive(Debug, Drop)]
pub struct Local {
    pub ty: CoreType,
    pub shape: Shape,
    pub home: Home,
}

pub type Locals = Items<Local>;

/// A `let` or a parameter of the processor that is named in the unit, and its scalars.
#[derive(Debug, Drop)]
pub struct Constant {
    pub ty: CoreType,
    pub shape: Shape,
    pub value: Scalars,
}

pub type Constants = Items<Constant>;

/// A function that the unit calls: `first` is the number of its first parameter as a variable. The others follow, and
/// then its locals.
#[derive(Debug, Drop)]
pub struct Function {
    pub params: Vars,
    pub first: u32,
    pub result: Option<CoreType>,
    pub body: CoreStmt,
}

pub type Functions = Items<Function>;

/// The handler of an event input, `end` in the unit's `ends`: `first` is the number of its parameter as a variable.
#[derive(Debug, Drop)]
pub struct Handler {
    pub end: u32,
    pub param: Var,
    pub first: u32,
    pub body: CoreStmt,
}

pub type Handlers = Items<Handler>;

/// A processor at one list of arguments and one factor. A missing `init` or `main` is `None`, and every body is a block.
///
/// `locals` come after `state` in the numbers of variables: first those that are kept, then those of `init`, `main` and
/// the handlers, and then those of the functions in order. Functions stand callers first: each calls only functions of
/// higher numbers. `latency` is as stated, in inner frames, of which there are `factor` in a frame.
#[derive(Debug, Drop)]
pub struct Unit {
    pub ends: Ends,
    pub state: Vars,
    pub locals: Locals,
    pub constants: Constants,
    pub functions: Functions,
    pub init: Option<CoreStmt>,
    pub main: Option<CoreStmt>,
    pub handlers: Handlers,
    pub latency: u32,
    pub factor: u32,
}

pub type Units = Items<Unit>;
