ghost use Rattle.std.specs.Prelude.{◌≡◌, ◌↔◌, map, Contains, slice_get, IfOk, IfSome, None, Some, IsTrue};
ghost use Rattle.cm_base.specs.HostEnds.{AreDistinct};
ghost use Rattle.wasm_valid.specs.Texts.{texts};

use cm_base::NoMemory;
use std::alloc::Global;
use std::collections::BTreeMap;
use std::marker::Model;

/// Names whose places are found at once. Contracts see them as the list of names.
#[derive(Drop)]
pub struct Names<'a> {
    names: Vec<&'a str>,
    places: BTreeMap<&'a str, usize>,
    distinct: bool,
}

impl<'a> Model for Names<'a> {
    ghost use Rattle.std.specs.Prelude.{List, ℕ, ◌↔◌, IsTrue};
    ghost use Rattle.cm_base.specs.HostEnds.{AreDistinct};
    ghost use Rattle.wasm_valid.specs.Texts.{texts, TellsPlaces};

    ghost Value = { List (List ℕ) };

    ghost view = { λ n. texts n.names.items };

    ghost invariant = { λ n. TellsPlaces (texts n.names.items) n.places × (IsTrue n.distinct ↔ AreDistinct (texts n.names.items)) };
}

impl<'a> Names<'a> {
    /// Finds the places of these names, in a time that is near to linear in their bytes.
    pub fn new(alloc: Global, names: Vec<&'a str>) -> Result<Names<'a>, NoMemory>
        ensures { IfOk result (λ found. found ≡ texts names.entry.items) }
    {
        let mut places = BTreeMap::new(alloc);
        let mut distinct = true;
        for at in 0..names.len() {
            if places.insert(names[at], at)?.is_some() {
                distinct = false;
            }
        }
        Ok(Names {
            names,
            places,
            distinct,
        })
    }

    /// Whether no name stands twice.
    pub fn are_distinct(&self) -> bool
        ensures { IsTrue result ↔ AreDistinct self.now }
    {
        self.distinct
    }

    /// A place of the name.
    #[tactic(auto, using(crate::proofs::NameLemmas::place_there, crate::proofs::NameLemmas::untold))]
    pub fn place(&self, name: &str) -> Option<usize>
        ensures found { IfSome result (λ at. slice_get self.now at ≡ Some name.now) }
        ensures absent { result ≡ None → ¬ Contains self.now name.now }
    {
        match self.places.get(name) {
            Some(at) => Some(*at),
            None => None,
        }
    }
}
