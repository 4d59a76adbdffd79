ghost use Rattle.std.specs.Prelude.{◌≡◌, ◌<◌, ◌^◌, length, IfOk, IfSome, option_map};
ghost use Rattle.std.specs.List.{AllByRecursion};
ghost use Rattle.cm_base.specs.HostEnds.{IsLawfulEnd};
ghost use Rattle.input_script.specs.Script.{is_kind, is_input_of, input_named, number_named, Numbered};

use cm_base::{Flow, HostEnd, Kind, NoMemory};
use std::alloc::Global;
use std::collections::HashMap;
use std::marker::Model;

/// The endpoints of a host, which are found by name at once. Contracts see them as the list of endpoints.
#[derive(Drop)]
pub(crate) struct Inputs<'a> {
    ends: &'a [HostEnd],
    numbers: HashMap<&'a str, u32>,
}

impl<'a> Model for Inputs<'a> {
    ghost use Rattle.std.specs.Prelude.{◌≡◌, ℕ, List, bytes_eq};
    ghost use Rattle.std.specs.HashMap.{get_by};
    ghost use Rattle.cm_base.specs.declared.host.HostEnd.{HostEnd};
    ghost use Rattle.input_script.specs.Script.{number_named};

    ghost Value = { List HostEnd };

    ghost view = { λ inputs. inputs.ends.now };

    ghost invariant = { λ inputs. (name : List ℕ) → get_by (λ key. bytes_eq name key.now) inputs.numbers ≡ number_named inputs.ends.now name };
}

/// An input of a host, and its number among all endpoints.
#[derive(Clone, Copy)]
pub(crate) struct Input<'a> {
    pub(crate) number: u32,
    pub(crate) end: &'a HostEnd,
}

fn is_kind(kind: Kind, other: Kind) -> bool
    ensures { result ≡ is_kind kind other }
{
    match kind {
        Kind::Stream => matches!(other, Kind::Stream),
        Kind::Value => matches!(other, Kind::Value),
        Kind::Event => matches!(other, Kind::Event),
    }
}

fn is_input_of(kind: Kind, end: &HostEnd) -> bool
    ensures { result ≡ is_input_of kind end.now }
{
    matches!(end.flow, Flow::Input) && is_kind(kind, end.kind)
}

impl<'a> Inputs<'a> {
    /// Numbers the endpoints by their names.
    pub(crate) fn new(alloc: Global, ends: &'a [HostEnd]) -> Result<Inputs<'a>, NoMemory>
        requires { length ends.now < 2 ^ 32 }
        ensures { IfOk result (λ inputs. inputs ≡ ends.now) }
    {
        let mut numbers = HashMap::with_capacity(alloc, ends.len())?;
        for number in (0..ends.len()).rev() {
            numbers.insert(ends[number].name.as_str(), number as u32)?;
        }
        Ok(Inputs { ends, numbers })
    }

    pub(crate) fn len(&self) -> usize
        ensures { result ≡ length self.now }
    {
        self.ends.len()
    }

    /// The input of this kind and name.
    #[tactic(auto, using(crate::proofs::Ends::lawful_at))]
    pub(crate) fn named(&self, kind: Kind, name: &str) -> Option<Input<'a>>
        ensures input { option_map (λ input. record { number = input.number; end = input.end.now }) result ≡ input_named kind self.now name.now }
        ensures within { IfSome result (λ input. input.number < length self.now) }
        ensures lawful { IfSome result (λ input. AllByRecursion IsLawfulEnd self.now → IsLawfulEnd input.end.now) }
    {
        let number = *self.numbers.get(name)?;
        let end = self.ends.get(number as usize)?;
        if is_input_of(kind, end) {
            Some(Input { number, end })
        } else {
            None
        }
    }
}
