ghost use Rattle.std.specs.Prelude.{◌≡◌, ℕ, ◌+◌, ◌<◌, ◌++◌, ◌∷◌, [], List, Bool, length, replicate, OnOk, OnErr, IfOk, if◌then◌else◌, IsTrue};
ghost use Rattle.name_scopes.specs.Stacks.{found, Visible, IsStacked, opened, outer_of, with_entry};

use sqlite_items::Items;
use std::alloc::{AllocError, Global};
use std::marker::Model;

/// A name, by its number, and the declaration that it stands for.
#[derive(Clone, Copy, Debug)]
pub struct Entry {
    pub name: usize,
    pub declaration: usize,
}

/// What was done to a table.
#[derive(Clone, Copy, Debug)]
enum Step {
    Entered,
    Declared(Entry),
}

/// The scopes round a place, each with its declarations. Names are numbers below a count, which grows one by one. A look-up
/// takes constant time, and a scope is left in the time of its declarations.
#[derive(Drop)]
pub struct Table {
    // what each name stands for, the innermost declaration last
    stacks: Vec<Items<usize>>,
    // all that wasn't left, the newest last
    log: Items<Step>,
}

impl Model for Table {
    ghost use Rattle.std.specs.Prelude.{length};
    ghost use Rattle.name_scopes.specs.Stacks.{Visible, IsStacked, opened};

    ghost Value = { Visible };

    ghost view = { λ t. record { names = length t.stacks.items; scopes = opened t.log } };

    ghost invariant = { λ t. IsStacked t.stacks.items t.log };
}

/// Takes the newest step back. Answers whether it was a declaration.
fn undo(stacks: &mut Vec<Items<usize>>, log: &mut Items<Step>) -> bool
    requires { IsStacked stacks.old.items log.old }
    ensures stacked { IsStacked stacks.new.items log.new }
    ensures names { length stacks.new.items ≡ length stacks.old.items }
    ensures shorter { IsTrue result → length log.new < length log.old }
    ensures outer { outer_of (opened log.old) ≡ (if result then outer_of (opened log.new) else opened log.new) }
{
    match log.pop() {
        None => false,
        Some(Step::Entered) => false,
        Some(Step::Declared(entry)) => {
            if entry.name < stacks.len() {
                stacks[entry.name].pop();
            }
            true
        }
    }
}

impl Table {
    /// A table for this many names, with no scope.
    pub fn new(alloc: Global, names: usize) -> Result<Table, AllocError>
        ensures { IfOk result (λ t. t ≡ record { names = names; scopes = [] }) }
    {
        let mut stacks = Vec::with_capacity(alloc, names)?;
        for _ in 0..names {
            stacks.push(Items::new(alloc))?;
        }
        Ok(Table {
            stacks,
            log: Items::new(alloc),
        })
    }

    /// Has one more name, which nothing declares.
    pub fn grow(&mut self, alloc: Global) -> Result<(), AllocError>
        ensures ok { OnOk result (self.new ≡ record { names = self.old.names + 1; scopes = self.old.scopes }) }
        ensures err { OnErr result (self.new ≡ self.old) }
    {
        self.stacks.push(Items::new(alloc))?;
        Ok(())
    }

    /// What the name stands for: its newest declaration in the innermost scope that has one.
    pub fn find(&self, name: usize) -> Option<usize>
        requires { name < self.now.names }
        ensures { result ≡ found name self.now.scopes }
    {
        self.stacks[name].as_slice().last().copied()
    }

    /// Opens a scope in the innermost one.
    pub fn enter(&mut self) -> Result<(), AllocError>
        ensures ok { OnOk result (self.new ≡ record { names = self.old.names; scopes = [] ∷ self.old.scopes }) }
        ensures err { OnErr result (self.new ≡ self.old) }
    {
        self.log.push(Step::Entered)?;
        Ok(())
    }

    /// Declares a name in the innermost scope, which is opened if there is none.
    pub fn declare(&mut self, name: usize, declaration: usize) -> Result<(), AllocError>
        requires { name < self.old.names }
        ensures ok { OnOk result (self.new ≡ record { names = self.old.names; scopes = with_entry (record { name = name; declaration = declaration }) self.old.scopes }) }
        ensures err { OnErr result (self.new ≡ self.old) }
    {
        self.log.push(Step::Declared(Entry { name, declaration }))?;
        match self.stacks[name].push(declaration) {
            Ok(()) => Ok(()),
            Err(error) => {
                self.log.pop();
                Err(error)
            }
        }
    }

    /// Leaves the innermost scope, with all its declarations.
    pub fn leave(&mut self)
        ensures { self.new ≡ record { names = self.old.names; scopes = outer_of self.old.scopes } }
    {
        while undo(&mut self.stacks, &mut self.log) {}
    }
}
