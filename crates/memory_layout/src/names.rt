ghost use Rattle.std.specs.Prelude.{◌≡◌, max};
ghost use Rattle.cm_core.specs.Types as types;
ghost use Rattle.memory_layout.specs.Held.{held};
ghost use Rattle.memory_layout.specs.Uses.{use_of, own_of};
ghost use Rattle.memory_layout.specs.Views.{viewed};

use crate::scale::Scale;
use crate::type_view::TypeView;
use crate::used::Used;
use cm_base::Scalar;

impl<'a> Scale<'a> {
    /// The type of a variable of the unit.
    pub fn variable_type(&self, number: u32) -> TypeView<'a>
        ensures { viewed result ≡ types.variable_type self.now.unit.now number }
    {
        let state = self.unit.state.as_slice();
        let position = number as usize;
        if position < state.len() {
            return TypeView::of(&state[position].ty);
        }
        match self.unit.locals.get(position - state.len()) {
            Some(local) => TypeView::of(&local.ty),
            None => TypeView::scalar(Scalar::Bool),
        }
    }

    /// The type of an endpoint of the unit.
    pub fn end_type(&self, number: u32) -> TypeView<'a>
        ensures { viewed result ≡ types.end_type self.now.unit.now number }
    {
        match self.unit.ends.get(number as usize) {
            Some(end) => TypeView::of(&end.ty),
            None => TypeView::scalar(Scalar::Bool),
        }
    }

    /// The type of a constant of the unit.
    pub fn constant_type(&self, number: u32) -> TypeView<'a>
        ensures { viewed result ≡ types.constant_type self.now.unit.now number }
    {
        match self.unit.constants.get(number as usize) {
            Some(constant) => TypeView::of(&constant.ty),
            None => TypeView::scalar(Scalar::Bool),
        }
    }

    /// How many scalars a value of a type counts for.
    pub fn scalars(&self, ty: TypeView<'_>) -> u64
        ensures { result ≡ held (max 1 (types.count_of self.now.structs.now (viewed ty.entry))) }
    {
        ty.scalars(self.known).max(1)
    }

    /// What an expression counts without its parts.
    pub fn own(&self, used: Used, ty: TypeView<'_>, is_place: bool, is_constant: bool) -> u64
        ensures { result ≡ held (own_of (max 1 (types.count_of self.now.structs.now (viewed ty.entry))) (use_of used) is_place is_constant) }
    {
        let is_passed = match used {
            Used::Value => false,
            Used::Place(moving) => is_place && !(moving && is_constant),
        };
        if is_passed {
            1
        } else {
            self.scalars(ty).saturating_add(1)
        }
    }
}
