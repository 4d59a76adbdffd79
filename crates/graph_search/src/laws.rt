ghost use Rattle.std.specs.Prelude.{ℕ, List, ◌∷◌, ◌≡◌};
ghost use Rattle.graph_search.specs.Edges.{AreWithin};
ghost use Rattle.graph_search.specs.Orders.{IsAcyclic, IsCycle, IsOrder, IsRanking};
ghost use Rattle.graph_search.specs.Paths.{LeadsThrough};
ghost use Rattle.graph_search.specs.declared.edges.Edge.{Edge};

/// There is one order at most.
pub fn order_is_unique()
    ensures { (es : List Edge) (n : ℕ) (xs ys : List ℕ) → IsOrder es n xs → IsOrder es n ys → xs ≡ ys }
{}

/// Where there is an order there is no cycle.
pub fn ordered_is_acyclic()
    ensures { (es : List Edge) (n : ℕ) (ls : List ℕ) → AreWithin n es → IsOrder es n ls → IsAcyclic es }
{}

/// A cycle leads from its first node through the others back to it.
pub fn cycle_leads_back()
    ensures { (es : List Edge) (first : ℕ) (rest : List ℕ) → IsCycle es (first ∷ rest) → LeadsThrough es first rest first }
{}

/// Where there is a ranking, no node leads back to itself.
pub fn ranked_never_leads_back()
    ensures { (es : List Edge) (n : ℕ) (ranks : List ℕ) → IsRanking es n ranks
        → (p : ℕ) (between : List ℕ) → ¬ LeadsThrough es p between p }
{}
