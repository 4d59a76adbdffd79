//! The sizes of patches: the numbers of leaves and chains, the expanded size, the split points, the bytes of memory, and the latency.
#![tactic(auto, unfolding(crate::specs::Measured::measured))]

ghost use Rattle.std.specs.Prelude.{◌≡◌, [], ◌∷◌, codes};
ghost use Rattle.patch_rows.specs.Told.{lines, io};
ghost use Rattle.patch_rows.specs.Measured.{measured, measures};

/// A processor that copies its input: 1 for itself, 2 for its endpoints and 8 for its `main`, 2 for the chains, 4 for the endpoints of
/// the host.
pub fn copying_is_small()
    ensures { measured (io (codes "loop { out <- in; advance(); }")) ≡ measures 1 2 17 3 4720 0 }
{}

/// A stereo echo, whose rings have 352,800 bytes.
pub fn rings_are_counted()
    ensures { measured (lines (
        codes "processor Mix { input stream int dry, wet; input value int amount, gain; output stream int out;"
        ∷ codes "void main() { loop { out <- (dry + wet * amount / 100) * gain / 100; advance(); } } }"
        ∷ codes "graph Echo [[main]] { input stream int left, right;"
        ∷ codes "input value int amount [[ name: \"Amount\", min: 0, max: 100, init: 50 ]];"
        ∷ codes "input value int gain [[ name: \"Gain\", min: 0, max: 200, init: 100 ]];"
        ∷ codes "output stream int outL, outR; node l = Mix; node r = Mix;"
        ∷ codes "connection { left -> l.dry; right -> r.dry; l.out -> [44100] -> l.wet; r.out -> [44100] -> r.wet;"
        ∷ codes "amount -> l.amount; amount -> r.amount; gain -> l.gain; gain -> r.gain; l.out -> outL; r.out -> outR; } }"
        ∷ []))
        ≡ measures 2 10 90 3 359648 0 }
{}

/// A local of 262,141 scalars takes the size to its limit.
pub fn large_local()
    ensures { measured (codes "processor P [[main]] { void main() { int[262141] a; } }") ≡ measures 1 0 262144 0 4198464 0 }
{}

/// Sixty-four voices: what an event of the host does counts for each of its chains.
pub fn handlers_count_for_each_chain()
    ensures { measured (lines (
        codes "processor V (int k) { input event int note; output stream int out; int level;"
        ∷ codes "event note (int n) { level = n * k; } void main() { loop { out <- level; level = level / 2; advance(); } } }"
        ∷ codes "graph G [[main]] { input event int note; output stream int out; node v = V(7)[64];"
        ∷ codes "connection { note -> v.note; v.out -> out; } }"
        ∷ []))
        ≡ measures 64 128 2116 3 52672 0 }
{}

/// A call counts its arguments, the scalars of its result and parameters, and the body. A name that is only selected from counts 1.
pub fn calls_count_bodies()
    ensures { measured (codes "processor P [[main]] { output stream int out; int[4] a; int f(int x) { return a[x] + 1; } void main() { out <- f(2); advance(); } }")
        ≡ measures 1 1 25 1 4720 0 }
{}

/// The name of a constant counts its scalars where the index isn't constant, and 1 where it is.
pub fn moving_index()
    ensures { measured (codes "processor P [[main]] { input stream int in; output stream int out; let t = int[2](3, 4); void main() { out <- t[in] + t[1]; advance(); } }")
        ≡ measures 1 2 27 1 4880 0 }
{}

/// The latency of a walk of three processors, each late by two frames. The input waits for six frames in a ring of 24 bytes.
pub fn latency_adds_up()
    ensures { measured (lines (
        codes "processor D { input stream int in; output stream int out; int a, b; processor.latency = 2;"
        ∷ codes "void main() { loop { out <- b; b = a; a = in; advance(); } } }"
        ∷ codes "graph G [[main]] { input stream int in; output stream int out; node c = D; node b = D; node a = D;"
        ∷ codes "connection { in -> a.in; a.out -> b.in; b.out -> c.in; c.out -> out; in -> out; } }"
        ∷ []))
        ≡ measures 3 5 72 3 6032 6 }
{}

/// Loops, branches and locals: the `for` over a `wrap` counts 6, the one of three parts 24, the `while` 4, the constants 8.
pub fn each_statement_counts()
    ensures { measured (lines (
        codes "processor P [[main]] { output stream int out; void main() { for (wrap<3> i) out <- i;"
        ∷ codes "for (int j = 0; j < 2; ++j) { if (j == 1) break; else continue; }"
        ∷ codes "while (false) ; let k = 2, m = k; advance(); return; } }"
        ∷ []))
        ≡ measures 1 1 50 1 5104 0 }
{}

/// A struct counts the scalars of its fields, and in memory 8 bytes for an `int64` and 4 for an `int`.
pub fn structs_count_fields()
    ensures { measured (lines (
        codes "processor P [[main]] { output stream int out; struct S { int a; int64 b; } S s, t;"
        ∷ codes "void main() { s.b = 5; t = s; s = S(1, 2); out <- s.a; advance(); } }"
        ∷ []))
        ≡ measures 1 1 36 1 4904 0 }
{}
