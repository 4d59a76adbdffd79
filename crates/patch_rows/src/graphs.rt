//! Graphs of several processors.
#![tactic(auto, unfolding(crate::specs::Told::told, crate::specs::Told::told_from))]

ghost use Rattle.std.specs.Prelude.{◌≡◌, pos, negsuc, [], ◌∷◌, codes};
ghost use Rattle.cm_base.specs.declared.play.Item.TheVariants as item;
ghost use Rattle.patch_rows.specs.Told.{input, silence, ended, frames, lines, told};

/// What is fed back comes one frame later. If the delay were a frame too long, the second output would be 1.
pub fn fed_back()
    ensures { told (lines (
        codes "processor Q { input stream int in; output stream int out;"
        ∷ codes "void main() { loop { out <- in; advance(); } } }"
        ∷ codes "graph G [[main]] { input stream int in; output stream int out; node a = Q;"
        ∷ codes "connection { in -> a.in; a.out -> [1] -> a.in; a.out -> out; } }"
        ∷ [])) (input (pos 1 ∷ pos 1 ∷ pos 1 ∷ [])) 1000
        ≡ ended (frames (pos 1 ∷ pos 2 ∷ pos 3 ∷ [])) }
{}

/// The input waits for the processor that is late by two frames.
pub fn latency_is_filled()
    ensures { told (lines (
        codes "processor D { input stream int in; output stream int out; int a, b; processor.latency = 2;"
        ∷ codes "void main() { loop { out <- b; b = a; a = in; advance(); } } }"
        ∷ codes "graph G [[main]] { input stream int in; output stream int out; node a = D;"
        ∷ codes "connection { in -> a.in; a.out -> out; in -> out; } }"
        ∷ [])) (input (pos 1 ∷ pos 2 ∷ pos 3 ∷ pos 4 ∷ [])) 1000
        ≡ ended (frames (pos 0 ∷ pos 0 ∷ pos 2 ∷ pos 4 ∷ [])) }
{}

/// Latencies add up along a walk, whatever the order of the declarations. If they were filled in that order, the input would come
/// earlier than in the seventh frame.
pub fn latencies_add_up()
    ensures { told (lines (
        codes "processor D { input stream int in; output stream int out; int a, b; processor.latency = 2;"
        ∷ codes "void main() { loop { out <- b; b = a; a = in; advance(); } } }"
        ∷ codes "graph G [[main]] { input stream int in; output stream int out; node c = D; node b = D; node a = D;"
        ∷ codes "connection { in -> a.in; a.out -> b.in; b.out -> c.in; c.out -> out; in -> out; } }"
        ∷ [])) (input (pos 1 ∷ pos 2 ∷ pos 3 ∷ pos 4 ∷ pos 5 ∷ pos 6 ∷ pos 7 ∷ pos 8 ∷ [])) 1000
        ≡ ended (frames (pos 0 ∷ pos 0 ∷ pos 0 ∷ pos 0 ∷ pos 0 ∷ pos 0 ∷ pos 2 ∷ pos 4 ∷ [])) }
{}

/// A graph in a graph, and an array of nodes: each element gives one more than its input, and both are heard.
pub fn graph_in_a_graph()
    ensures { told (lines (
        codes "processor A { input stream int in; output stream int out;"
        ∷ codes "void main() { loop { out <- in + 1; advance(); } } }"
        ∷ codes "graph H { input stream int in; output stream int out; node x = A[2];"
        ∷ codes "connection { in -> x[0].in; x[0].out -> x[1].in; x.out -> out; } }"
        ∷ codes "graph G [[main]] { input stream int in; output stream int out; node h = H;"
        ∷ codes "connection { in -> h.in; h.out -> out; } }"
        ∷ [])) (input (pos 1 ∷ pos 2 ∷ [])) 1000
        ≡ ended (frames (pos 5 ∷ pos 7 ∷ [])) }
{}

/// Each instance has its own types and values, and the elements of an array add up.
pub fn each_its_own_types()
    ensures { told (lines (
        codes "processor P (using T, int n) { output stream int64 out; T s;"
        ∷ codes "void main() { loop { s = s + T(2147483647); out <- s * n; advance(); } } }"
        ∷ codes "graph G [[main]] { output stream int64 wide, narrow; node a = P(int64, 3); node b = P(int, 3)[2];"
        ∷ codes "connection { a.out -> wide; b.out -> narrow; } }"
        ∷ [])) (silence 2) 1000
        ≡ ended (item.Frame 0 (pos 6442450941 ∷ pos 4294967290 ∷ []) ∷ item.Frame 1 (pos 12884901882 ∷ negsuc 11 ∷ []) ∷ []) }
{}

/// With a factor of 3 the output of the last of three inner frames is heard. Their sum would be 6 in the first frame.
pub fn last_inner_frame()
    ensures { told (lines (
        codes "processor C { output stream int out; int n;"
        ∷ codes "void main() { loop { n += 1; out <- n; advance(); } } }"
        ∷ codes "graph G [[main]] { output stream int out; node a = C * 3; connection a.out -> out; }"
        ∷ [])) (silence 3) 1000
        ≡ ended (frames (pos 3 ∷ pos 6 ∷ pos 9 ∷ [])) }
{}

/// The input is held over the inner frames.
pub fn input_is_held()
    ensures { told (lines (
        codes "processor A { input stream int in; output stream int out; int s;"
        ∷ codes "void main() { loop { s += in; out <- s; advance(); } } }"
        ∷ codes "graph G [[main]] { input stream int in; output stream int out; node a = A * 2;"
        ∷ codes "connection { [latch] in -> a.in; a.out -> out; } }"
        ∷ [])) (input (pos 1 ∷ pos 2 ∷ [])) 1000
        ≡ ended (frames (pos 2 ∷ pos 6 ∷ [])) }
{}

/// An echo that comes back after two frames with half of what went in.
pub fn echo()
    ensures { told (lines (
        codes "processor Mix { input stream int dry, wet; input value int amount; output stream int out;"
        ∷ codes "void main() { loop { out <- dry + wet * amount / 100; advance(); } } }"
        ∷ codes "graph Echo [[main]] { input stream int in; output stream int out;"
        ∷ codes "input value int amount [[ name: \"Amount\", min: 0, max: 100, init: 50 ]];"
        ∷ codes "node m = Mix;"
        ∷ codes "connection { in -> m.dry; m.out -> [2] -> m.wet; amount -> m.amount; m.out -> out; } }"
        ∷ [])) (input (pos 1000 ∷ pos 0 ∷ pos 0 ∷ pos 0 ∷ pos 0 ∷ [])) 1000
        ≡ ended (frames (pos 1000 ∷ pos 0 ∷ pos 500 ∷ pos 0 ∷ pos 250 ∷ [])) }
{}

/// A stereo echo as a user writes it: in its first two frames what goes in on the left comes out there, and nothing comes back yet.
pub fn stereo_echo()
    ensures { told (lines (
        codes "processor Mix { input stream int dry, wet; input value int amount, gain; output stream int out;"
        ∷ codes "void main() { loop { out <- (dry + wet * amount / 100) * gain / 100; advance(); } } }"
        ∷ codes "graph Echo [[main]] { input stream int left, right;"
        ∷ codes "input value int amount [[ name: \"Amount\", min: 0, max: 100, init: 50 ]];"
        ∷ codes "input value int gain [[ name: \"Gain\", min: 0, max: 200, init: 100 ]]; output stream int outL, outR;"
        ∷ codes "node l = Mix; node r = Mix;"
        ∷ codes "connection { left -> l.dry; right -> r.dry; l.out -> [44100] -> l.wet; r.out -> [44100] -> r.wet;"
        ∷ codes "amount -> l.amount; amount -> r.amount; gain -> l.gain; gain -> r.gain; l.out -> outL; r.out -> outR; } }"
        ∷ [])) (record (silence 2) { streams = (pos 1000 ∷ []) ∷ [] }) 1000
        ≡ ended (item.Frame 0 (pos 1000 ∷ pos 0 ∷ []) ∷ item.Frame 1 (pos 0 ∷ pos 0 ∷ []) ∷ []) }
{}
