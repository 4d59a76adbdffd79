ghost use Rattle.std.specs.Prelude.{◌≡◌, [], map, IfOk, OnOk};
ghost use Rattle.name_scopes.specs.Members.{names_of};
ghost use Rattle.scope_walk.specs.Meant.{step_as};
ghost use Rattle.scope_walk.specs.Steps.{outside, sites_by};
ghost use Rattle.path_names.specs.Found.{found_at};
ghost use Rattle.path_names.specs.Ids.{declared_by, placed, use_as};
ghost use Rattle.path_names.specs.Walking.{IsAt, IsReady, TakesAll};

use crate::id::Use;
use crate::local::Local;
use crate::walk::Walk;
use cm_base::Items;
use name_scopes::{Members, Names, Table};
use scope_walk::{Step, Steps};
use std::alloc::{AllocError, Global};
use std::marker::Model;

/// What each path of a patch stands for. Contracts see the declarations of namespaces, those of other scopes, and the paths by
/// their places.
#[derive(Drop)]
pub struct PathNames<'a> {
    known: Members<'a>,
    locals: Items<Local<'a>>,
    uses: Items<Use>,
}

impl<'a> Model for PathNames<'a> {
    ghost use Rattle.std.specs.Prelude.{map};
    ghost use Rattle.std.specs.Coded.{codes};
    ghost use Rattle.cm_tree.specs.contracts.expr.Base as base;
    ghost use Rattle.cm_tree.specs.contracts.expr.Expr as expr;
    ghost use Rattle.cm_tree.specs.contracts.stmt.Stmt as stmt;
    ghost use Rattle.name_scopes.specs.Members.{names_of};
    ghost use Rattle.path_names.specs.Ids.{Named, local_in};

    ghost Value = { Named };

    ghost coded = { Prim.hlevel (codes, base.the_row.coded, expr.the_row.coded, stmt.the_row.coded) };

    ghost view = { λ t. record { members = names_of t.known; locals = map (local_in t.known.spaces) t.locals; uses = t.uses } };
}

// A walk that begins in the whole patch.
fn start<'a>(alloc: Global, known: Members<'a>) -> Result<Walk<'a>, AllocError>
    ensures ready { IfOk result (λ w. IsReady w) }
    ensures start { IfOk result (λ w. IsAt w (outside (names_of known.entry) []) [] []) }
{
    let table = Table::new(alloc, 0)?;
    let space = known.root();
    Ok(Walk {
        known,
        names: Names::new(alloc),
        table,
        space,
        unit: None,
        locals: Items::new(alloc),
        uses: Items::new(alloc),
    })
}

// Takes steps one after the other.
fn follow<'a>(alloc: Global, walk: &mut Walk<'a>, steps: &[Step<'a>]) -> Result<(), AllocError>
    requires { IsReady walk.old }
    ensures { OnOk result (TakesAll walk.old walk.new (map step_as steps.now)) }
{
    for step in steps {
        walk.take(alloc, *step)?;
    }
    Ok(())
}

impl<'a> PathNames<'a> {
    /// What the paths on a walk stand for, which begins in the whole patch with these declarations of namespaces: at each path
    /// what is found at its site on the way.
    pub fn find_all(
        alloc: Global,
        members: Members<'a>,
        steps: &Steps<'a>,
    ) -> Result<PathNames<'a>, AllocError>
        ensures members { IfOk result (λ t. t.members ≡ names_of members.entry) }
        ensures locals { IfOk result (λ t. t.locals ≡ declared_by (outside (names_of members.entry) []) steps.now) }
        ensures uses { IfOk result (λ t. map (use_as t.members t.locals) t.uses ≡ map placed (found_at (sites_by (outside (names_of members.entry) []) steps.now))) }
    {
        let mut walk = start(alloc, members)?;
        follow(alloc, &mut walk, steps.as_slice())?;
        Ok(PathNames {
            known: walk.known,
            locals: walk.locals,
            uses: walk.uses,
        })
    }

    /// The paths by their places, in the order of the walk, with the numbers of what they stand for.
    pub fn as_slice(&self) -> &[Use]
        ensures { result.now ≡ self.now.uses }
    {
        self.uses.as_slice()
    }
}
