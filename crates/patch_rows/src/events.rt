//! Events, values and parameters.
#![tactic(auto, unfolding(crate::specs::Told::told, crate::specs::Told::told_from))]

ghost use Rattle.std.specs.Prelude.{◌≡◌, pos, [], ◌∷◌, codes};
ghost use Rattle.cm_base.specs.declared.play.Item.TheVariants as item;
ghost use Rattle.patch_rows.specs.Told.{input, silence, setting, ended, event, frame, frames, lines, told, told_from};

/// An event is told where it is written, before its frame. If events came after the frame, each would stand behind it.
pub fn before_their_frames()
    ensures { told (lines (
        codes "processor P [[main]] { output event int e; output stream int out; int n;"
        ∷ codes "void main() { loop { n += 1; e <- n; out <- n; advance(); } } }"
        ∷ [])) (silence 3) 1000
        ≡ ended (event 0 0 (pos 1) ∷ frame 0 (pos 1) ∷ event 1 0 (pos 2) ∷ frame 1 (pos 2) ∷ event 2 0 (pos 3) ∷ frame 2 (pos 3) ∷ []) }
{}

/// A handler runs before the turn of its processor, and sees the stream inputs of its last turn. If it saw those of this frame,
/// the outputs would be 11, 22 and 33.
pub fn handled_first()
    ensures { told (lines (
        codes "processor A { output event int e;"
        ∷ codes "void main() { loop { e <- 1; advance(); } } }"
        ∷ codes "processor B { input stream int in; input event int e; output stream int out;"
        ∷ codes "event e (int v) { out <- in; }"
        ∷ codes "void main() { loop { out <- 10 * in; advance(); } } }"
        ∷ codes "graph G [[main]] { input stream int in; output stream int out; node a = A; node b = B;"
        ∷ codes "connection { a.e -> b.e; in -> b.in; b.out -> out; } }"
        ∷ [])) (input (pos 1 ∷ pos 2 ∷ pos 3 ∷ [])) 1000
        ≡ ended (frames (pos 10 ∷ pos 21 ∷ pos 32 ∷ [])) }
{}

/// An event of the host goes through three nodes of one processor, each of which sends one more than it heard.
pub fn through_three_nodes()
    ensures { told (lines (
        codes "processor F { input event int i; output event int o; event i (int v) { o <- v + 1; } }"
        ∷ codes "graph G [[main]] { input event int i; output event int o; node f = F[3];"
        ∷ codes "connection { i -> f[0].i; f[0].o -> f[1].i; f[1].o -> f[2].i; f[2].o -> o; } }"
        ∷ [])) (record (silence 1) { events = setting 0 0 (pos 1) ∷ [] }) 1000
        ≡ ended (event 0 1 (pos 4) ∷ item.Frame 0 [] ∷ []) }
{}

/// The events of a frame come in the order in which they are written. A value keeps what was written last, in later frames too.
pub fn in_written_order()
    ensures { told (codes "processor P [[main]] { output event int e; output value int v; void main() { e <- 1; v <- 5; e <- 2; v <- 6; } }") (silence 2) 1000
        ≡ ended (event 0 0 (pos 1) ∷ event 0 0 (pos 2) ∷ frame 0 (pos 6) ∷ frame 1 (pos 6) ∷ []) }
{}

/// An event is delivered before the next statement: the handler sends 7 before the first node goes on to 2.
pub fn before_the_next_statement()
    ensures { told (lines (
        codes "processor A { output event int e, f; void main() { e <- 1; f <- 2; } }"
        ∷ codes "processor B { input event int e; output event int g;"
        ∷ codes "event e (int v) { g <- 7; } }"
        ∷ codes "graph G [[main]] { output event int x, y; node a = A; node b = B;"
        ∷ codes "connection { a.e -> b.e; b.g -> x; a.f -> y; } }"
        ∷ [])) (silence 1) 1000
        ≡ ended (event 0 0 (pos 7) ∷ event 0 1 (pos 2) ∷ item.Frame 0 [] ∷ []) }
{}

/// `init` comes before the first frame.
pub fn init_comes_first()
    ensures { told (codes "processor P [[main]] { output stream int out; int n; void init() { n = 7; } void main() { out <- n; advance(); } }") (silence 1) 1000
        ≡ ended (frames (pos 7 ∷ [])) }
{}

/// A parameter starts at its `init` and changes before the frame that the script names.
pub fn changed_at_a_frame()
    ensures { told (lines (
        codes "processor P [[main]] { input value int gain [[ name: \"Gain\", min: 0, max: 10, init: 3 ]]; output stream int out;"
        ∷ codes "void main() { loop { out <- gain; advance(); } } }"
        ∷ [])) (record (silence 3) { values = setting 1 0 (pos 7) ∷ [] }) 1000
        ≡ ended (frames (pos 3 ∷ pos 7 ∷ pos 7 ∷ [])) }
{}

/// A parameter starts at what is saved under its name.
pub fn starts_as_saved()
    ensures { told_from (record { name = codes "gain"; value = pos 10 } ∷ record { name = codes "old"; value = pos 1 } ∷ []) (lines (
        codes "processor P [[main]] { input value int gain [[ name: \"Gain\", min: 0, max: 10, init: 3 ]]; output stream int out;"
        ∷ codes "void main() { loop { out <- gain; advance(); } } }"
        ∷ [])) (silence 1) 1000
        ≡ ended (frames (pos 10 ∷ [])) }
{}

/// Parameters start one after another, in the order of their declarations: the handler of the first sees 0 for the second. If all
/// values were set first, it would give 57.
pub fn one_after_another()
    ensures { told (lines (
        codes "processor P [[main]] { input event int e [[ name: \"E\", init: 5 ]];"
        ∷ codes "input value int v [[ name: \"V\", init: 7 ]]; output stream int out;"
        ∷ codes "event e (int x) { out <- x * 10 + v; }"
        ∷ codes "void main() { loop { advance(); } } }"
        ∷ [])) (silence 2) 1000
        ≡ ended (frames (pos 50 ∷ pos 0 ∷ [])) }
{}
