ghost use Rattle.std.specs.Prelude.{ℕ, suc, List, ◌≡◌, ◌≤◌, length, true};
ghost use Rattle.cm_base.specs.declared.place.LeafId.{LeafId};
ghost use Rattle.cm_core.specs.declared.flat.Flat.{Flat};
ghost use Rattle.cm_core.specs.Flats.{NamesLeaves};
ghost use Rattle.cm_core.specs.Forward.{has_leaf};
ghost use Rattle.cm_core.specs.Linked.{Linked};
ghost use Rattle.cm_core.specs.Measures.{handled_size};
ghost use Rattle.graph_order.specs.Order.{IsOrder};
ghost use Rattle.memory_layout.specs.Held.{held};
ghost use Rattle.memory_layout.specs.Onward.{GoForward};
ghost use Rattle.memory_layout.specs.Ordered.{AreUndelayed, IsOrdered};

/// Where events go forward in an order of leaves, the handlers of these leaves are counted in full at a depth of as many.
pub fn handlers_settle()
    ensures { (l : Linked) (leaves : List LeafId) → GoForward l.flat.chains leaves → (d : ℕ) → length leaves ≤ d → (j : ℕ) → has_leaf leaves j ≡ true → (e : ℕ) → held (handled_size l d j e) ≡ held (handled_size l (suc d) j e) }
{}

/// The order of the leaves of a flat graph, by `graph_order`, is one in which events go forward, where no event chain has a
/// delay.
pub fn orders_lead_on()
    ensures { (flat : Flat) (order : List LeafId) → NamesLeaves flat → AreUndelayed flat.chains → IsOrder flat order → IsOrdered flat order }
{}
