ghost use Rattle.std.specs.Prelude.{◌≡◌, ◌<◌, ◌++◌, ◌∷◌, [], List, ℕ, length, map, slice_get, bytes_eq, position, if◌then◌else◌, OnErr, IfOk, Some, not};
ghost use Rattle.std.specs.List.{list_any};
ghost use Rattle.std.specs.Option.{option_copied};
ghost use Rattle.name_scopes.specs.Numbers.{added, number_in};

use indexmap::IndexSet;
use std::alloc::{AllocError, Global};
use std::marker::Model;

/// Texts of names, numbered from 0 in the order in which they were first given. No two numbers have one text.
#[derive(Drop)]
pub struct Names<'a> {
    texts: IndexSet<&'a str>,
}

impl<'a> Model for Names<'a> {
    ghost use Rattle.std.specs.Prelude.{List, ℕ};
    ghost use Rattle.name_scopes.specs.Numbers.{texts_of};

    ghost Value = { List (List ℕ) };

    ghost view = { λ n. texts_of n.texts.keys };
}

impl<'a> Names<'a> {
    /// No names.
    pub fn new(alloc: Global) -> Names<'a>
        ensures { result ≡ [] }
    {
        Names {
            texts: IndexSet::new(alloc),
        }
    }

    /// How many names have a number.
    pub fn len(&self) -> usize
        ensures { result ≡ length self.now }
    {
        self.texts.len()
    }

    /// The number of this text, which it gets now if it has none.
    pub fn number(&mut self, text: &'a str) -> Result<usize, AllocError>
        ensures number { IfOk result (λ n. slice_get self.new n ≡ Some text.now) }
        ensures first { IfOk result (λ n. number_in self.new text.now ≡ Some n) }
        ensures names { IfOk result (λ n. self.new ≡ added self.old text.now) }
        ensures err { OnErr result (self.new ≡ self.old) }
    {
        match self.texts.insert_full(text) {
            Ok((number, _is_new)) => Ok(number),
            Err(_error) => Err(AllocError),
        }
    }

    /// Gives this text a number if it has none. Answers whether it had none.
    pub fn insert(&mut self, text: &'a str) -> Result<bool, AllocError>
        ensures new { IfOk result (λ b. b ≡ not (list_any (bytes_eq text.now) self.old)) }
        ensures names { IfOk result (λ _. self.new ≡ added self.old text.now) }
        ensures err { OnErr result (self.new ≡ self.old) }
    {
        match self.texts.insert_full(text) {
            Ok((_number, is_new)) => Ok(is_new),
            Err(_error) => Err(AllocError),
        }
    }

    /// The number of this text, if it has one.
    pub fn find(&self, text: &str) -> Option<usize>
        ensures { result ≡ number_in self.now text.now }
    {
        self.texts.get_index_of(text)
    }

    /// The text of a number.
    pub fn text(&self, number: usize) -> Option<&'a str>
        ensures { option_copied result ≡ slice_get self.now number }
    {
        self.texts.get_index(number).copied()
    }
}
