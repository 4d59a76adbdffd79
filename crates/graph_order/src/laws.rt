ghost use Rattle.std.specs.Prelude.{List, ◌≡◌};
ghost use Rattle.cm_base.specs.declared.place.LeafId.{LeafId};
ghost use Rattle.cm_core.specs.declared.flat.Flat.{Flat};
ghost use Rattle.graph_order.specs.Order.{IsOrder};

/// There is one order at most.
pub fn order_is_unique()
    ensures { (flat : Flat) (xs ys : List LeafId) → IsOrder flat xs → IsOrder flat ys → xs ≡ ys }
{}
