ghost use Rattle.std.specs.Prelude.{◌≡◌, ◌<◌, ◌∷◌, [], length, option_map, slice_get, slice_index_or, OnErr, IfOk, Some};
ghost use Rattle.name_scopes.specs.Openings.{AreDistinct, inner, outer_space, space_number, with_space};

use indexmap::IndexSet;
use std::alloc::{AllocError, Global};
use std::marker::Model;

/// The namespaces of a patch, numbered from 0, which is that of the whole patch. Contracts see the list of their paths, each
/// with the innermost name first.
#[derive(Drop)]
pub struct Spaces<'a> {
    // each namespace but the whole patch, by the one that it stands in and its name; its number is one more than its place
    openings: IndexSet<(usize, &'a str)>,
}

impl<'a> Model for Spaces<'a> {
    ghost use Rattle.std.specs.Prelude.{List};
    ghost use Rattle.cm_meaning.specs.Declared.{Space};
    ghost use Rattle.name_scopes.specs.Openings.{spaces_of, AreRooted};

    ghost Value = { List Space };

    ghost view = { λ s. spaces_of s.openings.keys };

    ghost invariant = { λ s. AreRooted s.openings.keys (spaces_of s.openings.keys) };
}

impl<'a> Spaces<'a> {
    /// The whole patch alone.
    pub fn new(alloc: Global) -> Spaces<'a>
        ensures { result ≡ [] ∷ [] }
    {
        Spaces {
            openings: IndexSet::new(alloc),
        }
    }

    /// The number of the whole patch.
    pub fn root(&self) -> usize
        ensures { slice_get self.now result ≡ Some [] }
    {
        let _openings = &self.openings;
        0
    }

    /// How many namespaces have a number. No two are one.
    pub fn count(&self) -> usize
        ensures count { result ≡ length self.now }
        ensures distinct { AreDistinct self.now }
    {
        self.openings.len() + 1
    }

    /// The number of the namespace of this name in another, which is opened now if it was not.
    pub fn open(&mut self, space: usize, name: &'a str) -> Result<usize, AllocError>
        requires { space < length self.old }
        ensures number { IfOk result (λ n. slice_get self.new n ≡ Some (inner self.old space name.now)) }
        ensures spaces { IfOk result (λ _. self.new ≡ with_space self.old (inner self.old space name.now)) }
        ensures err { OnErr result (self.new ≡ self.old) }
    {
        match self.openings.insert_full((space, name)) {
            Ok((place, _is_new)) => {
                // A set has fewer than 2^63 keys.
                let _count = self.openings.len();
                Ok(place + 1)
            }
            Err(_error) => Err(AllocError),
        }
    }

    /// The number of the namespace of this name in another.
    pub fn find(&self, space: usize, name: &'a str) -> Option<usize>
        requires { space < length self.now }
        ensures { result ≡ space_number self.now (inner self.now space name.now) }
    {
        match self.openings.get_index_of(&(space, name)) {
            Some(place) => {
                // A set has fewer than 2^63 keys.
                let _count = self.openings.len();
                Some(place + 1)
            }
            None => None,
        }
    }

    /// The number of the namespace that another stands in. The whole patch stands in none.
    pub fn outer(&self, number: usize) -> Option<usize>
        requires { number < length self.now }
        ensures { option_map (slice_get self.now) result ≡ option_map Some (outer_space (slice_index_or self.now number [])) }
    {
        let openings = &self.openings;
        if number == 0 {
            return None;
        }
        match openings.get_index(number - 1).copied() {
            None => None,
            Some((space, _name)) => Some(space),
        }
    }
}
