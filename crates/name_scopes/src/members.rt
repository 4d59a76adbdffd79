ghost use Rattle.std.specs.Prelude.{◌≡◌, ◌<◌, ◌∷◌, [], ◌++◌, ◌&&◌, false, not, length, slice_get, slice_index_or, option_map, IfSome, OnOk, OnErr, IfOk, Some};
ghost use Rattle.std.specs.List.{list_any};
ghost use Rattle.cm_meaning.specs.NameFaults.{clashes};
ghost use Rattle.cm_meaning.specs.Scopes.{find_in, outward, space_names, space_scopes};
ghost use Rattle.name_scopes.specs.Openings.{AreDistinct, inner, outer_space};
ghost use Rattle.name_scopes.specs.Members.{Adds, IsBelow, IsLonger, IsNumberOf, declared_in, found_within, is_part, names_of, namespace_number, part_of, space_at};

use crate::named::{Member, Named};
use crate::spaces::Spaces;
use cm_base::{Cause, Fail, Items, Place};
use indexmap::IndexMap;
use std::alloc::{AllocError, Global};
use std::marker::Model;

/// The declarations of the namespaces of a patch, in the order in which they were given, with numbers from 0. Two of one name
/// in one namespace are parts of one namespace. Contracts see the namespaces, and the declarations.
#[derive(Drop)]
pub struct Members<'a> {
    spaces: Spaces<'a>,
    names: Items<Member<'a>>,
    // the number of the first declaration of each name in each namespace
    firsts: IndexMap<(usize, &'a str), usize>,
}

impl<'a> Model for Members<'a> {
    ghost use Rattle.std.specs.Coded.{codes};
    ghost use Rattle.cm_tree.specs.contracts.expr.Base as base;
    ghost use Rattle.cm_tree.specs.contracts.expr.Expr as expr;
    ghost use Rattle.cm_tree.specs.contracts.stmt.Stmt as stmt;
    ghost use Rattle.name_scopes.specs.Members.{Known, AreIndexed};

    ghost Value = { Known };

    ghost coded = { Prim.hlevel (codes, base.the_row.coded, expr.the_row.coded, stmt.the_row.coded) };

    ghost view = { λ m. record { spaces = m.spaces; members = m.names } };

    ghost invariant = { λ m. AreIndexed m.spaces m.names m.firsts.entries };
}

fn is_namespace(named: &Named<'_>) -> bool
    ensures { result ≡ is_part named.now }
{
    match named {
        Named::Namespace(_) => true,
        Named::Processor(_) => false,
        Named::Graph(_) => false,
        Named::Struct(_, _) => false,
        Named::Using(_) => false,
        Named::Constant(_) => false,
        Named::Function(_) => false,
    }
}

fn namespace_number(named: &Named<'_>) -> Option<usize>
    ensures { result ≡ namespace_number named.now }
{
    match named {
        Named::Namespace(number) => Some(*number),
        Named::Processor(_) => None,
        Named::Graph(_) => None,
        Named::Struct(_, _) => None,
        Named::Using(_) => None,
        Named::Constant(_) => None,
        Named::Function(_) => None,
    }
}

// Whether two declarations of one name are no parts of one namespace.
fn differ(a: &Named<'_>, b: &Named<'_>) -> bool
    ensures { result ≡ not (is_part a.now && is_part b.now) }
{
    !(is_namespace(a) && is_namespace(b))
}

impl<'a> Members<'a> {
    /// The whole patch, with no declarations.
    pub fn new(alloc: Global) -> Members<'a>
        ensures { result ≡ record { spaces = [] ∷ []; members = [] } }
    {
        Members {
            spaces: Spaces::new(alloc),
            names: Items::new(alloc),
            firsts: IndexMap::new(alloc),
        }
    }

    // Whether the name that this declares stands in its namespace already, other than for another part of what is declared.
    fn clashes(&self, member: &Member<'a>) -> bool
        requires distinct { AreDistinct self.now.spaces }
        requires below { IsBelow (length self.now.spaces) member.now }
        ensures { result ≡ list_any (clashes (declared_in self.now.spaces member.now)) (names_of self.now) }
    {
        match self.firsts.get(&(member.space, member.text)) {
            None => false,
            Some(first) => match self.names.get(*first) {
                None => false,
                Some(other) => differ(&member.named, &other.named),
            },
        }
    }

    // Puts a declaration behind the others, which it doesn't clash with.
    fn push(&mut self, member: Member<'a>) -> Result<(), AllocError>
        requires distinct { AreDistinct self.old.spaces }
        requires below { IsBelow (length self.old.spaces) member }
        requires free { list_any (clashes (declared_in self.old.spaces member)) (names_of self.old) ≡ false }
        ensures ok { OnOk result (self.new ≡ record { spaces = self.old.spaces; members = self.old.members ++ member.entry ∷ [] }) }
        ensures err { OnErr result (self.new ≡ self.old) }
    {
        let number = self.names.len();
        self.names.push(member)?;
        if self.firsts.contains_key(&(member.space, member.text)) {
            return Ok(());
        }
        match self.firsts.insert((member.space, member.text), number) {
            Ok(_none) => Ok(()),
            Err(_error) => {
                self.names.pop();
                Err(AllocError)
            }
        }
    }

    /// Adds a declaration. Refused by `DuplicateName` at one whose name stands in its namespace already.
    pub fn declare(&mut self, alloc: Global, member: Member<'a>) -> Result<(), Fail>
        requires { IsBelow (length self.old.spaces) member }
        ensures adds { Adds self.old (declared_in self.old.spaces member.entry ∷ []) result self.new }
        ensures spaces { self.new.spaces ≡ self.old.spaces }
    {
        // No two namespaces are one.
        let _count = self.spaces.count();
        if self.clashes(&member) {
            return Err(Fail::refused(alloc, Cause::DuplicateName, member.place));
        }
        self.push(member)?;
        Ok(())
    }

    /// Adds a part of the namespace of this name in another, and answers the number of the namespace.
    pub fn open(
        &mut self,
        alloc: Global,
        space: usize,
        place: Place,
        text: &'a str,
    ) -> Result<usize, Fail>
        requires { space < length self.old.spaces }
        ensures adds { Adds self.old (part_of self.old.spaces space place text.now ∷ []) result self.new }
        ensures number { IfOk result (λ n. slice_get self.new.spaces n ≡ Some (inner self.old.spaces space text.now)) }
        ensures below { IfOk result (λ n. n < length self.new.spaces) }
    {
        let inner = self.spaces.open(space, text)?;
        self.declare(
            alloc,
            Member {
                space,
                place,
                text,
                named: Named::Namespace(inner),
            },
        )?;
        Ok(inner)
    }

    /// The number of what a name finds in a namespace: its first declaration there.
    pub fn find(&self, space: usize, text: &'a str) -> Option<usize>
        requires { space < length self.now.spaces }
        ensures { IsNumberOf (names_of self.now) result (find_in text.now (space_names (names_of self.now) (slice_index_or self.now.spaces space []))) }
    {
        // No two namespaces are one.
        let _count = self.spaces.count();
        self.firsts.get(&(space, text)).copied()
    }

    /// The number of the whole patch.
    pub fn root(&self) -> usize
        ensures { slice_get self.now.spaces result ≡ Some [] }
    {
        self.spaces.root()
    }

    /// The number of the namespace that another stands in. The whole patch stands in none.
    pub fn outer(&self, space: usize) -> Option<usize>
        requires { space < length self.now.spaces }
        ensures { option_map (slice_get self.now.spaces) result ≡ option_map Some (outer_space (slice_index_or self.now.spaces space [])) }
    {
        self.spaces.outer(space)
    }

    /// The number of the namespace of this name in another, which it gets now if it has none. Nothing is declared.
    pub fn number_space(&mut self, space: usize, text: &'a str) -> Result<usize, AllocError>
        requires { space < length self.old.spaces }
        ensures number { IfOk result (λ n. slice_get self.new.spaces n ≡ Some (inner self.old.spaces space text.now)) }
        ensures names { OnOk result (names_of self.new ≡ names_of self.old) }
        ensures spaces { OnOk result (IsLonger self.old.spaces self.new.spaces) }
        ensures err { OnErr result (self.new ≡ self.old) }
    {
        self.spaces.open(space, text)
    }

    /// The number of what a name finds from a namespace outward: in the first that has it, of the namespace and those round it.
    pub fn find_outward(&self, space: usize, text: &'a str) -> Option<usize>
        requires { space < length self.now.spaces }
        ensures { IsNumberOf (names_of self.now) result (outward text.now (space_scopes (names_of self.now) (slice_index_or self.now.spaces space []))) }
    {
        let mut inner = Some(space);
        while let Some(number) = inner {
            if let Some(found) = self.find(number, text) {
                return Some(found);
            }
            inner = self.outer(number);
        }
        None
    }

    /// The number of what a name finds in the declaration of a number: only a namespace has names.
    pub fn find_inner(&self, number: usize, text: &'a str) -> Option<usize>
        ensures { IsNumberOf (names_of self.now) result (found_within (names_of self.now) number text.now) }
    {
        match self.space_of(number) {
            None => None,
            Some(space) => self.find(space, text),
        }
    }

    // The number of the namespace that the declaration of a number is a part of.
    fn space_of(&self, number: usize) -> Option<usize>
        ensures below { IfSome result (λ n. n < length self.now.spaces) }
        ensures space { result ≡ space_at self.now.members number }
    {
        match self.names.get(number) {
            None => None,
            Some(member) => namespace_number(&member.named),
        }
    }

    /// The declarations, each at its number.
    pub fn as_slice(&self) -> &[Member<'a>]
        ensures { result.now ≡ self.now.members }
    {
        self.names.as_slice()
    }
}
