ghost use Rattle.std.specs.Prelude.{◌≡◌, [], ◌∷◌, List, IfOk};
ghost use Rattle.cm_meaning.specs.Declared.{Space};
ghost use Rattle.cm_meaning.specs.Exact.{IsExactly};
ghost use Rattle.cm_meaning.specs.NameFaults.{member_faults};
ghost use Rattle.cm_meaning.specs.Scopes.{patch_names};
ghost use Rattle.name_scopes.specs.Members.{declared_in, faults_within, names_in, names_of};

use crate::apart::check_unit;
use crate::members::Members;
use crate::named::{Member, Named};
use crate::walk::add_files;
use cm_base::Fail;
use cm_tree::File;
use std::alloc::Global;
use std::marker::Model;

/// The scopes of a patch, which borrow its files. Contracts see the files.
#[derive(Drop)]
pub struct Scopes<'a> {
    files: &'a [File],
    // all declarations of namespaces
    members: Members<'a>,
}

impl<'a> Model for Scopes<'a> {
    ghost use Rattle.std.specs.Prelude.{◌≡◌, List};
    ghost use Rattle.std.specs.Coded.{codes};
    ghost use Rattle.cm_tree.specs.contracts.expr.Base as base;
    ghost use Rattle.cm_tree.specs.contracts.expr.Expr as expr;
    ghost use Rattle.cm_tree.specs.contracts.stmt.Stmt as stmt;
    ghost use Rattle.cm_tree.specs.contracts.decl.Decl as decl;
    ghost use Rattle.cm_tree.specs.declared.file.File.{File as Tree};
    ghost use Rattle.cm_meaning.specs.Scopes.{patch_names};
    ghost use Rattle.name_scopes.specs.Members.{names_of};

    ghost Value = { List Tree };

    ghost coded = { Prim.hlevel (codes, base.the_row.coded, expr.the_row.coded, stmt.the_row.coded, decl.the_row.coded) };

    ghost view = { λ s. s.files.now };

    ghost invariant = { λ s. names_of s.members ≡ patch_names s.files.now };
}

/// Whether a processor or a graph has names of its own, if a declaration is one.
fn check_member(alloc: Global, member: &Member<'_>) -> Result<(), Fail>
    ensures { (spaces : List Space) → IsExactly (faults_within (declared_in spaces member.now ∷ [])) result }
{
    match member.named {
        Named::Processor(unit) => check_unit(alloc, unit),
        Named::Graph(unit) => check_unit(alloc, unit),
        Named::Namespace(_) => Ok(()),
        Named::Struct(_, _) => Ok(()),
        Named::Using(_) => Ok(()),
        Named::Constant(_) => Ok(()),
        Named::Function(_) => Ok(()),
    }
}

fn check_members(alloc: Global, members: &[Member<'_>]) -> Result<(), Fail>
    ensures { (spaces : List Space) → IsExactly (faults_within (names_in spaces members.now)) result }
{
    for member in members {
        check_member(alloc, member)?;
    }
    Ok(())
}

impl<'a> Scopes<'a> {
    /// The scopes of these files. Refused by `DuplicateName` exactly where a name stands twice in a namespace, a processor or
    /// a graph, at one that stands behind another.
    pub fn build(alloc: Global, files: &'a [File]) -> Result<Scopes<'a>, Fail>
        ensures exact { IsExactly (member_faults files.now) result }
        ensures files { IfOk result (λ s. s ≡ files.now) }
    {
        let mut members = Members::new(alloc);
        add_files(alloc, &mut members, files)?;
        check_members(alloc, members.as_slice())?;
        Ok(Scopes { files, members })
    }

    /// The files.
    pub fn files(&self) -> &'a [File]
        ensures { result.now ≡ self.now }
    {
        self.files
    }

    /// The declarations of all namespaces of the files.
    pub fn into_members(self) -> Members<'a>
        ensures { names_of result ≡ patch_names self.entry }
    {
        self.members
    }
}
