ghost use Rattle.std.specs.Prelude.{◌≡◌, [], ◌∷◌, ◌++◌, map, OnOk};
ghost use Rattle.scope_walk.specs.Steps.{Meets, MeetsParams, MeetsUnit, MeetsLocal, MeetsCounter, MeetsGiven, Enters, Leaves, Introduces, EntersUnit, LeavesUnit, EntersSpace, LeavesSpace, EntersLoop, LeavesLoop, EntersText, LeavesText};
ghost use Rattle.scope_walk.specs.Meant.{named_as, part_as, step_as, unit_as};

use cm_base::{Flow, Items, Kind, Name, Place};
use cm_tree::{
    Arg, Expr, Fields, Function, Key, Node, Path, Point, TypeExpr, Typed, UnitDecl, Word,
};
use std::alloc::{AllocError, Global};
use std::marker::Model;

/// What a name that is declared stands for.
#[derive(Clone, Copy, Debug)]
pub enum Declaration<'a> {
    /// `struct S { .. }`, with the place of its first token
    Struct(Place, &'a [Fields]),
    /// `using T = int;`
    Using(&'a TypeExpr),
    /// `let a = 1;` outside of bodies
    Constant(&'a Expr),
    /// `void f() { .. }`
    Function(&'a Function),
    /// `var a = 1;` of a processor
    InferredState(&'a Expr),
    /// `int a = 1;`, `int a;` of a processor
    TypedState(&'a TypeExpr, Option<&'a Expr>),
    /// `input stream int a [[ min: 1 ]];`
    Endpoint(Flow, Kind, &'a TypeExpr, &'a [Key]),
    /// `node a = P;`
    Node(&'a Node),
    /// `using T`, a parameter of a processor or a graph, by its position
    TypeParameter(usize),
    /// `int n`, a parameter of a processor or a graph, by its position
    ValueParameter(usize, &'a TypeExpr),
    /// a parameter of a function or a handler
    Parameter(&'a TypeExpr),
    /// `let a = 1;` in a body
    LocalConstant(&'a Expr),
    /// `var a = 1;` in a body
    InferredLocal(&'a Expr),
    /// `int a = 1;`, `int a;` in a body
    TypedLocal(&'a TypeExpr, Option<&'a Expr>),
    /// the variable of `for (wrap<4> i)`
    Counter(&'a TypeExpr),
}

/// A place with a rule, by its role.
#[derive(Clone, Copy, Debug)]
pub enum Part<'a> {
    /// A value is read by its name.
    Reads(&'a Path),
    /// A function is called, or a value is made of a named type.
    Calls(&'a Path, &'a [Expr]),
    /// An argument of a call or of what makes a value.
    TakesArgument(&'a Expr),
    /// A type is named.
    NamesType(&'a Path),
    /// `out <- ..`
    Writes(&'a Word),
    /// What is assigned, by its name.
    Assigns(&'a Word),
    /// The fields of a struct.
    HasFields(&'a [Fields]),
    /// A function.
    Defines(&'a Function),
    /// A handler's event input.
    Handles(&'a Word),
    /// A node.
    DeclaresNode(&'a Node),
    /// An end of a connection.
    Joins(&'a Point),
    /// `break` or `continue`
    Jumps(Place),
    /// `advance`
    Advances(Place),
}

/// Whether a processor or a graph is declared.
#[derive(Clone, Copy, Debug)]
pub enum UnitKind {
    Processor,
    Graph,
}

/// A step of the walk.
#[derive(Clone, Copy, Debug)]
pub enum Step<'a> {
    /// A place with a rule.
    Meet(Part<'a>),
    /// The parameter of a handler, declared in a scope of its own.
    MeetParam(&'a Typed),
    /// The parameters of a function, declared in a scope of their own.
    MeetParams(&'a [Typed]),
    /// All names of the processor or graph round the place, declared in a scope of their own.
    MeetUnit,
    /// A local is declared, before which this many stand in the same declaration.
    MeetLocal(usize, &'a Word, Declaration<'a>),
    /// The variable of `for (wrap<4> i)` is declared, whose type stands round the innermost scope.
    MeetCounter(&'a Word, &'a TypeExpr),
    /// An argument of a node of this path, by its position.
    MeetGiven(&'a Path, usize, &'a Arg),
    /// A scope begins in the innermost one.
    Enter,
    /// The innermost scope ends.
    Leave,
    /// A name is declared in the innermost scope.
    Declare(&'a Word, Declaration<'a>),
    /// A processor or a graph begins, in a scope of its own, and its text with it.
    EnterUnit(UnitKind, &'a UnitDecl),
    /// A processor or a graph ends, and the innermost scope and text with it.
    LeaveUnit,
    /// A namespace of this name begins in the innermost one.
    EnterSpace(&'a Name),
    /// The innermost namespace ends.
    LeaveSpace,
    /// A body of a loop begins.
    EnterLoop,
    /// The innermost body of a loop ends.
    LeaveLoop,
    /// The text of a declaration begins.
    EnterText(&'a Word, Declaration<'a>),
    /// The innermost text of a declaration ends.
    LeaveText,
}

/// Steps in their order. Contracts see what they mean.
#[derive(Drop)]
pub struct Steps<'a> {
    list: Items<Step<'a>>,
}

impl<'a> Model for Steps<'a> {
    ghost use Rattle.std.specs.Prelude.{List, map};
    ghost use Rattle.std.specs.Coded.{codes};
    ghost use Rattle.cm_tree.specs.contracts.expr.Base as base;
    ghost use Rattle.cm_tree.specs.contracts.expr.Expr as expr;
    ghost use Rattle.cm_tree.specs.contracts.stmt.Stmt as stmt;
    ghost use Rattle.scope_walk.specs.Steps.{Step as Meant};
    ghost use Rattle.scope_walk.specs.Meant.{step_as};

    ghost Value = { List Meant };

    ghost coded = { Prim.hlevel (codes, base.the_row.coded, expr.the_row.coded, stmt.the_row.coded) };

    ghost view = { λ s. map step_as s.list };
}

impl<'a> Steps<'a> {
    /// No steps.
    pub fn new(alloc: Global) -> Steps<'a>
        ensures { result ≡ [] }
    {
        Steps {
            list: Items::new(alloc),
        }
    }

    /// The steps, each at its place.
    pub fn as_slice(&self) -> &[Step<'a>]
        ensures { map step_as result.now ≡ self.now }
    {
        self.list.as_slice()
    }

    /// A place with a rule.
    pub fn meet(&mut self, part: Part<'a>) -> Result<(), AllocError>
        ensures { OnOk result (self.new ≡ self.old ++ Meets (part_as part.entry) ∷ []) }
    {
        self.list.push(Step::Meet(part))
    }

    /// The parameter of a handler, where it is declared.
    pub fn meet_param(&mut self, param: &'a Typed) -> Result<(), AllocError>
        ensures { OnOk result (self.new ≡ self.old ++ MeetsParams (param.now ∷ []) ∷ []) }
    {
        self.list.push(Step::MeetParam(param))
    }

    /// The parameters of a function, where they are declared.
    pub fn meet_params(&mut self, params: &'a [Typed]) -> Result<(), AllocError>
        ensures { OnOk result (self.new ≡ self.old ++ MeetsParams params.now ∷ []) }
    {
        self.list.push(Step::MeetParams(params))
    }

    /// All names of the processor or graph that the walk is in, where they are declared.
    pub fn meet_unit(&mut self) -> Result<(), AllocError>
        ensures { OnOk result (self.new ≡ self.old ++ MeetsUnit ∷ []) }
    {
        self.list.push(Step::MeetUnit)
    }

    /// A local, before which this many stand in the same declaration.
    pub fn meet_local(
        &mut self,
        before: usize,
        word: &'a Word,
        declaration: Declaration<'a>,
    ) -> Result<(), AllocError>
        ensures { OnOk result (self.new ≡ self.old ++ MeetsLocal before word.now (named_as declaration.entry) ∷ []) }
    {
        self.list.push(Step::MeetLocal(before, word, declaration))
    }

    /// The variable of `for (wrap<4> i)`, in the scope that begins for it.
    pub fn meet_counter(&mut self, word: &'a Word, ty: &'a TypeExpr) -> Result<(), AllocError>
        ensures { OnOk result (self.new ≡ self.old ++ MeetsCounter word.now ty.now ∷ []) }
    {
        self.list.push(Step::MeetCounter(word, ty))
    }

    /// An argument of a node of this path, by its position.
    pub fn meet_given(
        &mut self,
        path: &'a Path,
        position: usize,
        arg: &'a Arg,
    ) -> Result<(), AllocError>
        ensures { OnOk result (self.new ≡ self.old ++ MeetsGiven path.now position arg.now ∷ []) }
    {
        self.list.push(Step::MeetGiven(path, position, arg))
    }

    /// A scope begins.
    pub fn enter(&mut self) -> Result<(), AllocError>
        ensures { OnOk result (self.new ≡ self.old ++ Enters ∷ []) }
    {
        self.list.push(Step::Enter)
    }

    /// The innermost scope ends.
    pub fn leave(&mut self) -> Result<(), AllocError>
        ensures { OnOk result (self.new ≡ self.old ++ Leaves ∷ []) }
    {
        self.list.push(Step::Leave)
    }

    /// A name is declared in the innermost scope.
    pub fn declare(
        &mut self,
        word: &'a Word,
        declaration: Declaration<'a>,
    ) -> Result<(), AllocError>
        ensures { OnOk result (self.new ≡ self.old ++ Introduces word.now (named_as declaration.entry) ∷ []) }
    {
        self.list.push(Step::Declare(word, declaration))
    }

    /// A processor or a graph begins.
    pub fn enter_unit(&mut self, kind: UnitKind, unit: &'a UnitDecl) -> Result<(), AllocError>
        ensures { OnOk result (self.new ≡ self.old ++ EntersUnit (unit_as kind unit.now) unit.now ∷ []) }
    {
        self.list.push(Step::EnterUnit(kind, unit))
    }

    /// A processor or a graph ends.
    pub fn leave_unit(&mut self) -> Result<(), AllocError>
        ensures { OnOk result (self.new ≡ self.old ++ LeavesUnit ∷ []) }
    {
        self.list.push(Step::LeaveUnit)
    }

    /// A namespace begins in the innermost one.
    pub fn enter_space(&mut self, name: &'a Name) -> Result<(), AllocError>
        ensures { OnOk result (self.new ≡ self.old ++ EntersSpace name.now ∷ []) }
    {
        self.list.push(Step::EnterSpace(name))
    }

    /// The innermost namespace ends.
    pub fn leave_space(&mut self) -> Result<(), AllocError>
        ensures { OnOk result (self.new ≡ self.old ++ LeavesSpace ∷ []) }
    {
        self.list.push(Step::LeaveSpace)
    }
    /// A body of a loop begins.
    pub fn enter_loop(&mut self) -> Result<(), AllocError>
        ensures { OnOk result (self.new ≡ self.old ++ EntersLoop ∷ []) }
    {
        self.list.push(Step::EnterLoop)
    }

    /// The innermost body of a loop ends.
    pub fn leave_loop(&mut self) -> Result<(), AllocError>
        ensures { OnOk result (self.new ≡ self.old ++ LeavesLoop ∷ []) }
    {
        self.list.push(Step::LeaveLoop)
    }

    /// The text of a declaration begins.
    pub fn enter_text(
        &mut self,
        word: &'a Word,
        declaration: Declaration<'a>,
    ) -> Result<(), AllocError>
        ensures { OnOk result (self.new ≡ self.old ++ EntersText word.now (named_as declaration.entry) ∷ []) }
    {
        self.list.push(Step::EnterText(word, declaration))
    }

    /// The innermost text of a declaration ends.
    pub fn leave_text(&mut self) -> Result<(), AllocError>
        ensures { OnOk result (self.new ≡ self.old ++ LeavesText ∷ []) }
    {
        self.list.push(Step::LeaveText)
    }
}
