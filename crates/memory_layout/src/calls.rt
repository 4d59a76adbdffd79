ghost use Rattle.std.specs.Prelude.{◌≡◌, max, sum_by, unwrap_or};
ghost use Rattle.std.specs.Option.{option_copied};
ghost use Rattle.cm_core.specs.declared.unit.Var.{Var as TheVar};
ghost use Rattle.cm_core.specs.Linked.{end_of};
ghost use Rattle.cm_core.specs.Types as types;
ghost use Rattle.cm_core.specs.Sizes as sizes;
ghost use Rattle.memory_layout.specs.Held.{held};
ghost use Rattle.memory_layout.specs.Scales.{scale_of};
ghost use Rattle.memory_layout.specs.Views.{viewed};

use crate::scale::Scale;
use crate::type_view::TypeView;
use cm_base::Scalar;
use cm_core::{CoreType, Var};

impl<'a> Scale<'a> {
    /// What a function gives; a truth value where it gives nothing.
    pub fn result_type(&self, number: u32) -> TypeView<'a>
        ensures { viewed result ≡ unwrap_or (types.result_type self.now.unit.now number) types.truth_type }
    {
        match self.result_of(number) {
            Some(ty) => TypeView::of(ty),
            None => TypeView::scalar(Scalar::Bool),
        }
    }

    // What a function gives, if anything.
    fn result_of(&self, number: u32) -> Option<&'a CoreType>
        ensures { option_copied result ≡ types.result_type self.now.unit.now number }
    {
        match self.unit.functions.get(number as usize) {
            Some(function) => function.result.as_ref(),
            None => None,
        }
    }

    // How many scalars the parameters of a function have.
    fn parameters(&self, number: u32) -> u64
        ensures { result ≡ held (sum_by (λ (p : TheVar). max 1 (types.count_of self.now.structs.now p.ty)) (sizes.params_of self.now.unit.now number)) }
    {
        match self.unit.functions.get(number as usize) {
            Some(function) => self.variables(function.params.as_slice()),
            None => 0,
        }
    }

    // How many scalars some variables have.
    fn variables(&self, all: &[Var]) -> u64
        ensures { result ≡ held (sum_by (λ (p : TheVar). max 1 (types.count_of self.now.structs.now p.ty)) all.now) }
    {
        let mut count: u64 = 0;
        let mut rest = all;
        while let Some((first, others)) = rest.split_first() {
            count = count.saturating_add(self.scalars(TypeView::of(&first.ty)));
            rest = others;
        }
        count
    }

    // The size of the body of a function.
    fn body(&self, number: u32) -> u64
        ensures { result ≡ (scale_of self.now).body number }
    {
        let position = number.saturating_sub(self.first);
        match self.bodies.get(position as usize) {
            Some(size) => *size,
            None => 0,
        }
    }

    /// A call without its arguments.
    pub fn call(&self, number: u32) -> u64
        ensures { result ≡ held (sizes.call_size (scale_of self.now) number) }
    {
        let result = match self.result_of(number) {
            Some(ty) => self.scalars(TypeView::of(ty)),
            None => 0,
        };
        result
            .saturating_add(self.parameters(number))
            .saturating_add(self.body(number))
            .saturating_add(1)
    }

    /// How many scalars an endpoint counts for.
    pub fn end_scalars(&self, number: u32) -> u64
        ensures { result ≡ sizes.scalars (end_of self.now.unit.now number).shape }
    {
        match self.unit.ends.get(number as usize) {
            Some(end) => (end.shape.len() as u64).max(1),
            None => 1,
        }
    }

    /// What a write of an endpoint counts for its chains.
    pub fn reached(&self, number: u32) -> u64
        ensures { result ≡ (scale_of self.now).chains number }
    {
        match self.chains.get(number as usize) {
            Some(size) => *size,
            None => self.beyond,
        }
    }
}
