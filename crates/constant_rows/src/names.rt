ghost use Rattle.std.specs.Prelude.{◌≡◌, bytes_eq};
ghost use Rattle.const_values.specs.Names.{seen, IsSoundFound};
ghost use Rattle.constant_rows.specs.Names.{known_as, known_in, known_by};

use crate::sound::{is_sound, is_sound_type};
use cm_base::{Items, Name};
use cm_tree::Path;
use cm_types::{CmType, Valued};
use const_values::{ConstNames, Found};
use std::alloc::{AllocError, Global};

/// What a name is declared to be.
#[derive(Drop)]
pub enum Meaning {
    Constant(Valued),
    Type(CmType),
    /// A parameter of the processor or graph, by its position.
    Parameter(u32),
}

/// A name and what it is.
#[derive(Drop)]
pub struct Entry {
    pub name: Name,
    pub meaning: Meaning,
}

/// The names that are declared above a row.
#[derive(Drop)]
pub struct Names {
    list: Items<Entry>,
}

fn is_named(entry: &Entry, name: &Name) -> bool
    ensures { result ≡ bytes_eq entry.now.name name.now }
{
    entry.name.as_bytes() == name.as_bytes()
}

fn answered(meaning: &Meaning) -> Found<'_>
    ensures value { seen result ≡ known_as meaning.now }
    ensures sound { IsSoundFound result }
{
    match meaning {
        Meaning::Constant(one) => if is_sound(one) {
            Found::Value(one)
        } else {
            Found::Other
        },
        Meaning::Type(ty) => if is_sound_type(ty) {
            Found::Type(ty)
        } else {
            Found::Other
        },
        Meaning::Parameter(position) => Found::Param(*position),
    }
}

#[tactic(auto, unfolding(crate::specs::Names::known_in))]
fn find_in<'a>(name: &Name, all: &'a [Entry]) -> Found<'a>
    ensures value { seen result ≡ known_in name.now all.now }
    ensures sound { IsSoundFound result }
{
    let mut entries = all;
    loop {
        let Some((entry, rest)) = entries.split_first() else {
            return Found::Other;
        };
        if is_named(entry, name) {
            return answered(&entry.meaning);
        }
        entries = rest;
    }
}

fn find<'a>(path: &[Name], all: &'a [Entry]) -> Found<'a>
    ensures value { seen result ≡ known_by path.now all.now }
    ensures sound { IsSoundFound result }
{
    let Some((name, others)) = path.split_first() else {
        return Found::Other;
    };
    if others.is_empty() {
        find_in(name, all)
    } else {
        Found::Other
    }
}

impl ConstNames for Names {
    ghost finds = { λ names path. known_by path.names names.list };

    fn found(&self, path: &Path) -> Found<'_> {
        find(path.names.as_slice(), self.list.as_slice())
    }
}

impl Names {
    pub fn new(alloc: Global) -> Names {
        Names {
            list: Items::new(alloc),
        }
    }

    /// Declares a name.
    pub fn declare(&mut self, name: Name, meaning: Meaning) -> Result<(), AllocError> {
        self.list.push(Entry { name, meaning })
    }

    /// What a name is declared to be.
    pub fn meaning(&self, name: &str) -> Option<&Meaning> {
        for entry in self.list.as_slice() {
            if entry.name.as_str() == name {
                return Some(&entry.meaning);
            }
        }
        None
    }
}
