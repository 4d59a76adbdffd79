//! Turns, and where a run ends that lacks one.
#![tactic(auto, unfolding(crate::specs::Told::told, crate::specs::Told::told_from))]

ghost use Rattle.std.specs.Prelude.{◌≡◌, pos, [], ◌∷◌, codes};
ghost use Rattle.cm_base.specs.Parts.{Init, Send, Frame};
ghost use Rattle.patch_rows.specs.Told.{input, silence, setting, ended, out_in, event, frames, lines, told, io};

/// A loop without end spends the turns of the first frame, however many there are.
pub fn turns_are_spent_at_once()
    ensures { told (io (codes "while (true) {}")) (input (pos 1 ∷ [])) 1000 ≡ out_in (Frame 0 ((pos 1 ∷ []) ∷ [] ∷ [])) [] }
{}

/// A loop without end spends the turns of its frame, and what was told before stays told.
pub fn turns_are_spent()
    ensures { told (io (codes "out <- 3; advance(); while (true) {}")) (input (pos 1 ∷ pos 1 ∷ [])) 100
        ≡ out_in (Frame 1 ((pos 1 ∷ []) ∷ [] ∷ [])) (frames (pos 3 ∷ [])) }
{}

/// An event is told at once, also where the turns of its part are spent behind it.
pub fn told_before_spent()
    ensures { told (codes "processor P [[main]] { output event int e; void main() { e <- 9; while (true) {} } }") (silence 1) 1000
        ≡ out_in (Frame 0 ([] ∷ [])) (event 0 0 (pos 9) ∷ []) }
{}

/// Each body of a loop that is begun costs a turn, in functions too. A call, a block and an arm cost none, so this frame needs three.
pub fn three_turns()
    ensures { told (io (codes "loop { if (true) { add(); } advance(); } } void add() { loop (2) out <- 1;")) (silence 2) 3
        ≡ ended (frames (pos 2 ∷ pos 2 ∷ [])) }
{}

/// With two turns the same is out of turns in frame 0.
pub fn one_turn_less()
    ensures { told (io (codes "loop { if (true) { add(); } advance(); } } void add() { loop (2) out <- 1;")) (silence 2) 2
        ≡ out_in (Frame 0 ((pos 0 ∷ []) ∷ [] ∷ [])) [] }
{}

/// All inits share one budget: two nodes that begin two bodies each need four.
pub fn inits_share_turns()
    ensures { told (lines (
        codes "processor P { output stream int out; int n; void init() { loop (2) n += 1; } void main() { out <- n; advance(); } }"
        ∷ codes "graph G [[main]] { output stream int out; node p = P[2]; connection p.out -> out; }"
        ∷ [])) (silence 1) 4
        ≡ ended (frames (pos 4 ∷ [])) }
{}

/// With three turns the inits end the run.
pub fn inits_lack_a_turn()
    ensures { told (lines (
        codes "processor P { output stream int out; int n; void init() { loop (2) n += 1; } void main() { out <- n; advance(); } }"
        ∷ codes "graph G [[main]] { output stream int out; node p = P[2]; connection p.out -> out; }"
        ∷ [])) (silence 1) 3
        ≡ out_in Init [] }
{}

/// All nodes share the budget of a frame. With one turn the second of two lacks one.
pub fn nodes_share_turns()
    ensures { told (lines (
        codes "processor P { output stream int out;"
        ∷ codes "void main() { loop { out <- 1; advance(); } } }"
        ∷ codes "graph G [[main]] { output stream int out; node p = P[2]; connection p.out -> out; }"
        ∷ [])) (silence 1) 1
        ≡ out_in (Frame 0 ([] ∷ [])) [] }
{}

/// Each event of the host has a budget of its own, and so has the frame.
pub fn events_have_turns()
    ensures { told (lines (
        codes "processor P [[main]] { input event int e; output stream int out; int n;"
        ∷ codes "event e (int v) { loop (v) n += 1; }"
        ∷ codes "void main() { loop { out <- n; advance(); } } }"
        ∷ [])) (record (silence 2) { events = setting 1 0 (pos 3) ∷ setting 1 0 (pos 3) ∷ [] }) 3
        ≡ ended (frames (pos 0 ∷ pos 6 ∷ [])) }
{}

/// With two turns the first event ends the run, in frame 1.
pub fn an_event_lacks_a_turn()
    ensures { told (lines (
        codes "processor P [[main]] { input event int e; output stream int out; int n;"
        ∷ codes "event e (int v) { loop (v) n += 1; }"
        ∷ codes "void main() { loop { out <- n; advance(); } } }"
        ∷ [])) (record (silence 2) { events = setting 1 0 (pos 3) ∷ setting 1 0 (pos 3) ∷ [] }) 2
        ≡ out_in (Send 1 0 (pos 3 ∷ []) ([] ∷ [] ∷ [])) (frames (pos 0 ∷ [])) }
{}
