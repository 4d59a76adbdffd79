// Who is told the items of a run.

ghost use Rattle.std.specs.Prelude.{Bool};

use cm_base::Item;

/// Takes the items of a run as they come.
pub trait Teller {
    ghost use Rattle.cm_base.specs.declared.play.Item.{Item};

    /// What a call of `tell` may do: the teller before it, the item, whether the run goes on, and the teller after it.
    ghost tells: { Self → Item → Bool → Self → Type 0 };

    /// Takes an item, and says whether the run goes on.
    fn tell(&mut self, item: &Item) -> bool
        ensures { tells self.old item.now result self.new };
}
