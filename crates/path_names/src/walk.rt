ghost use Rattle.std.specs.Prelude.{◌≡◌, ◌<◌, List, [], length, slice_get, OnOk, IfOk, Some};
ghost use Rattle.cm_meaning.specs.Declared.{Space};
ghost use Rattle.cm_meaning.specs.Sites.{path_of_word};
ghost use Rattle.name_scopes.specs.Members.{names_of};
ghost use Rattle.name_scopes.specs.Numbers.{added, number_in};
ghost use Rattle.scope_walk.specs.Meant.{named_as, part_as, step_as, unit_as};
ghost use Rattle.scope_walk.specs.Steps.{Enters, EntersSpace, EntersUnit, Introduces, Leaves, LeavesSpace, LeavesUnit, Meets, MeetsGiven, space_round};
ghost use Rattle.path_names.specs.Walking.{IsReady, Looks, Takes};

use crate::id::Use;
use crate::local::Local;
use crate::look::{find_first, find_path};
use cm_base::{Items, Name};
use cm_tree::{Arg, Path, UnitDecl, Word};
use name_scopes::{Members, Names, Table};
use scope_walk::{Declaration, Part, Step, UnitKind, name_alone};
use std::alloc::{AllocError, Global};

/// A walk over a patch: the declarations of namespaces, and the scopes, the namespace and the processor or graph round the place
/// that it has come to, with all that it declared and looked up so far.
#[derive(Drop)]
pub struct Walk<'a> {
    pub known: Members<'a>,
    pub names: Names<'a>,
    pub table: Table,
    pub space: usize,
    pub unit: Option<&'a UnitDecl>,
    pub locals: Items<Local<'a>>,
    pub uses: Items<Use>,
}

// The number of a name, for which the table has a place.
fn number_name<'a>(
    alloc: Global,
    names: &mut Names<'a>,
    table: &mut Table,
    text: &'a str,
) -> Result<usize, AllocError>
    requires { table.old.names ≡ length names.old }
    ensures number { IfOk result (λ n. number_in names.new text.now ≡ Some n) }
    ensures below { IfOk result (λ n. n < table.new.names) }
    ensures names { OnOk result (names.new ≡ added names.old text.now) }
    ensures places { OnOk result (table.new.names ≡ length names.new) }
    ensures scopes { OnOk result (table.new.scopes ≡ table.old.scopes) }
{
    let count = names.len();
    let number = names.number(text)?;
    if names.len() > count {
        table.grow(alloc)?;
    }
    Ok(number)
}

// The number of the namespace that another stands in. The whole patch is not left.
fn outer_number(known: &Members<'_>, space: usize) -> usize
    requires { space < length known.now.spaces }
    ensures below { result < length known.now.spaces }
    ensures outer { (s : Space) → slice_get known.now.spaces space ≡ Some s → slice_get known.now.spaces result ≡ Some (space_round s) }
{
    match known.outer(space) {
        None => space,
        Some(outer) => outer,
    }
}

impl<'a> Walk<'a> {
    fn look(&mut self, path: &'a Path) -> Result<(), AllocError>
        requires { IsReady self.old }
        ensures ready { OnOk result (IsReady self.new) }
        ensures looks { OnOk result (Looks self.old self.new path.now) }
    {
        let id = find_path(self, path);
        self.uses.push(Use {
            place: path.place,
            id,
        })
    }

    fn look_word(&mut self, word: &'a Word) -> Result<(), AllocError>
        requires { IsReady self.old }
        ensures ready { OnOk result (IsReady self.new) }
        ensures looks { OnOk result (Looks self.old self.new (path_of_word word.now)) }
    {
        let id = find_first(self, word.text.as_str());
        self.uses.push(Use {
            place: word.place,
            id,
        })
    }

    fn meet(&mut self, part: Part<'a>) -> Result<(), AllocError>
        requires { IsReady self.old }
        ensures ready { OnOk result (IsReady self.new) }
        ensures takes { OnOk result (Takes self.old self.new (Meets (part_as part.entry))) }
    {
        match part {
            Part::Reads(path) => self.look(path),
            Part::Calls(path, _) => self.look(path),
            Part::TakesArgument(_) => Ok(()),
            Part::NamesType(path) => self.look(path),
            Part::Writes(word) => self.look_word(word),
            Part::Assigns(word) => self.look_word(word),
            Part::HasFields(_) => Ok(()),
            Part::Defines(_) => Ok(()),
            Part::Handles(word) => self.look_word(word),
            Part::DeclaresNode(node) => self.look(&node.path),
            Part::Joins(point) => self.look_word(&point.name),
            Part::Jumps(_) => Ok(()),
            Part::Advances(_) => Ok(()),
        }
    }

    // An argument of a node of this path, by its position: a path alone is looked up.
    fn meet_given(
        &mut self,
        path: &'a Path,
        position: usize,
        arg: &'a Arg,
    ) -> Result<(), AllocError>
        requires { IsReady self.old }
        ensures ready { OnOk result (IsReady self.new) }
        ensures takes { OnOk result (Takes self.old self.new (MeetsGiven path.now position arg.now)) }
    {
        match arg {
            Arg::Type(_, _) => Ok(()),
            Arg::Value(value) => match name_alone(value) {
                None => Ok(()),
                Some(path) => self.look(path),
            },
        }
    }

    fn enter(&mut self) -> Result<(), AllocError>
        requires { IsReady self.old }
        ensures ready { OnOk result (IsReady self.new) }
        ensures takes { OnOk result (Takes self.old self.new Enters) }
    {
        self.table.enter()
    }

    fn leave(&mut self)
        requires { IsReady self.old }
        ensures ready { IsReady self.new }
        ensures takes { Takes self.old self.new Leaves }
    {
        self.table.leave();
    }

    fn declare(
        &mut self,
        alloc: Global,
        word: &'a Word,
        declaration: Declaration<'a>,
    ) -> Result<(), AllocError>
        requires { IsReady self.old }
        ensures ready { OnOk result (IsReady self.new) }
        ensures takes { OnOk result (Takes self.old self.new (Introduces word.now (named_as declaration.entry))) }
    {
        let number = number_name(alloc, &mut self.names, &mut self.table, word.text.as_str())?;
        self.table.declare(number, self.locals.len())?;
        self.locals.push(Local {
            space: self.space,
            unit: self.unit,
            word,
            declaration,
        })
    }

    fn enter_unit(&mut self, kind: UnitKind, unit: &'a UnitDecl) -> Result<(), AllocError>
        requires { IsReady self.old }
        ensures ready { OnOk result (IsReady self.new) }
        ensures takes { OnOk result (Takes self.old self.new (EntersUnit (unit_as kind unit.now) unit.now)) }
    {
        self.table.enter()?;
        self.unit = Some(unit);
        Ok(())
    }

    fn leave_unit(&mut self)
        requires { IsReady self.old }
        ensures ready { IsReady self.new }
        ensures takes { Takes self.old self.new LeavesUnit }
    {
        self.table.leave();
        self.unit = None;
    }

    fn enter_space(&mut self, name: &'a Name) -> Result<(), AllocError>
        requires { IsReady self.old }
        ensures ready { OnOk result (IsReady self.new) }
        ensures takes { OnOk result (Takes self.old self.new (EntersSpace name.now)) }
    {
        self.space = self.known.number_space(self.space, name.as_str())?;
        self.unit = None;
        Ok(())
    }

    fn leave_space(&mut self)
        requires { IsReady self.old }
        ensures ready { IsReady self.new }
        ensures takes { Takes self.old self.new LeavesSpace }
    {
        self.space = outer_number(&self.known, self.space);
        self.unit = None;
    }

    /// Takes a step.
    pub fn take(&mut self, alloc: Global, step: Step<'a>) -> Result<(), AllocError>
        requires { IsReady self.old }
        ensures ready { OnOk result (IsReady self.new) }
        ensures takes { OnOk result (Takes self.old self.new (step_as step.entry)) }
    {
        match step {
            Step::Meet(part) => self.meet(part),
            Step::MeetParam(_) => Ok(()),
            Step::MeetParams(_) => Ok(()),
            Step::MeetUnit => Ok(()),
            Step::MeetLocal(_, _, _) => Ok(()),
            Step::MeetCounter(_, _) => Ok(()),
            Step::MeetGiven(path, position, arg) => self.meet_given(path, position, arg),
            Step::Enter => self.enter(),
            Step::Leave => {
                self.leave();
                Ok(())
            }
            Step::Declare(word, declaration) => self.declare(alloc, word, declaration),
            Step::EnterUnit(kind, unit) => self.enter_unit(kind, unit),
            Step::LeaveUnit => {
                self.leave_unit();
                Ok(())
            }
            Step::EnterSpace(name) => self.enter_space(name),
            Step::LeaveSpace => {
                self.leave_space();
                Ok(())
            }
            Step::EnterLoop => Ok(()),
            Step::LeaveLoop => Ok(()),
            Step::EnterText(_, _) => Ok(()),
            Step::LeaveText => Ok(()),
        }
    }
}
