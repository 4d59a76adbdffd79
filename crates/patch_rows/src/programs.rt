//! Runs of specialised programs that are given by hand. `graphs` and `events` have the same patches as text.
#![tactic(auto, unfolding(crate::specs::Programs::outcome))]

ghost use Rattle.std.specs.Prelude.{◌≡◌, pos, [], ◌∷◌};
ghost use Rattle.cm_base.specs.declared.play.Item.TheVariants as item;
ghost use Rattle.cm_base.specs.Players.{Ended};
ghost use Rattle.patch_rows.specs.Told.{input, silence, setting, event, frame, frames};
ghost use Rattle.patch_rows.specs.Programs.{outcome, nested_graphs, counting, three_leaves};

/// A graph in a graph, and an array of nodes: each element gives one more than its input, and both are heard.
pub fn graph_in_a_graph()
    ensures { outcome nested_graphs (input (pos 1 ∷ pos 2 ∷ [])) 1000 ≡ record { trace = frames (pos 5 ∷ pos 7 ∷ []); ending = Ended } }
{}

/// An event is told where it is written, before its frame.
pub fn before_their_frames()
    ensures { outcome counting (silence 3) 1000 ≡ record {
      trace = event 0 0 (pos 1) ∷ frame 0 (pos 1) ∷ event 1 0 (pos 2) ∷ frame 1 (pos 2) ∷ event 2 0 (pos 3) ∷ frame 2 (pos 3) ∷ [];
      ending = Ended;
    } }
{}

/// An event of the host goes through three leaves of one unit, each of which sends one more than it heard.
pub fn through_three_leaves()
    ensures { outcome three_leaves (record (silence 1) { events = setting 0 0 (pos 1) ∷ [] }) 1000
        ≡ record { trace = event 0 1 (pos 4) ∷ item.Frame 0 [] ∷ []; ending = Ended } }
{}
