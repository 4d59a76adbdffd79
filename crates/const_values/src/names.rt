ghost use Rattle.std.specs.Prelude.{◌≡◌, option_map, slice_get};
ghost use Rattle.std.specs.Option.{IfSome};
ghost use Rattle.cm_meaning.specs.Constants.{value_in, type_in};
ghost use Rattle.cm_types.specs.Lawful.{IsSound};
ghost use Rattle.cm_types.specs.Meant.{meant_type, meant_valued};
ghost use Rattle.const_values.specs.Names.{Known, seen, means, IsSoundType, IsSoundFound, AreSoundArguments};
ghost use Rattle.cm_tree.specs.declared.path.Path.{Path as ThePath};

use cm_base::Items;
use cm_tree::Path;
use cm_types::{CmType, Valued};
use std::alloc::Global;

/// What a path is found to be where a constant is needed.
pub enum Found<'a> {
    /// A constant, with its value.
    Value(&'a Valued),
    /// A type.
    Type(&'a CmType),
    /// A parameter of the processor or graph, by its position.
    Param(u32),
    /// Anything else, or nothing.
    Other,
}

/// What paths are found to be.
pub trait ConstNames {
    ghost finds: { Self → ThePath → Known };

    fn found(&self, path: &Path) -> Found<'_>
        ensures value { seen result ≡ finds self.now path.now }
        ensures sound { IsSoundFound result };
}

/// An argument of a processor or a graph.
#[derive(Debug, Drop)]
pub enum Argument {
    OfType(CmType),
    OfValue(Valued),
}

/// Arguments by the positions of their parameters.
pub type Arguments = Items<Argument>;

/// The instance in which an expression is evaluated.
#[derive(Debug, Drop)]
pub struct Env {
    pub params: Arguments,
}

impl Env {
    /// Outside of processors and graphs.
    pub fn none(alloc: Global) -> Env
        ensures { AreSoundArguments result.params }
    {
        Env {
            params: Items::new(alloc),
        }
    }
}

// The argument of a parameter.
fn argument_at(env: &Env, position: u32) -> Option<&Argument>
    ensures { option_map (λ a. a.now) result ≡ slice_get env.now.params position }
{
    env.params.get(position as usize)
}

/// The value of a path, where it is a constant or a value parameter.
pub fn value_named<'a, N: ConstNames>(path: &Path, env: &'a Env, names: &'a N) -> Option<&'a Valued>
    requires { AreSoundArguments env.now.params }
    ensures value { option_map (λ v. meant_valued v.now) result ≡ value_in (means env.now.params (N.finds names.now path.now)) }
    ensures sound { IfSome result (λ v. IsSound (meant_valued v.now)) }
{
    match names.found(path) {
        Found::Value(value) => Some(value),
        Found::Param(position) => match argument_at(env, position) {
            Some(Argument::OfValue(value)) => Some(value),
            Some(Argument::OfType(_)) | None => None,
        },
        Found::Type(_) | Found::Other => None,
    }
}

/// The type of a path, where it is one or a type parameter.
pub fn type_named<'a, N: ConstNames>(path: &Path, env: &'a Env, names: &'a N) -> Option<&'a CmType>
    requires { AreSoundArguments env.now.params }
    ensures ty { option_map (λ t. meant_type t.now) result ≡ type_in (means env.now.params (N.finds names.now path.now)) }
    ensures sound { IfSome result (λ t. IsSoundType (meant_type t.now)) }
{
    match names.found(path) {
        Found::Type(ty) => Some(ty),
        Found::Param(position) => match argument_at(env, position) {
            Some(Argument::OfType(ty)) => Some(ty),
            Some(Argument::OfValue(_)) | None => None,
        },
        Found::Value(_) | Found::Other => None,
    }
}
