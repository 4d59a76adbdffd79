//! How the statements and expressions of one processor act.
#![tactic(auto, unfolding(crate::specs::Told::told, crate::specs::Told::told_from))]

ghost use Rattle.std.specs.Prelude.{◌≡◌, pos, negsuc, [], ◌∷◌, codes};
ghost use Rattle.cm_base.specs.declared.play.Item.TheVariants as item;
ghost use Rattle.patch_rows.specs.Told.{input, silence, ended, frames, lines, told, io};

/// The right side of `&&` and of `||` is evaluated only where it is needed. If it always were, f would add 100 twice.
pub fn only_where_needed()
    ensures { told (io (codes "if (false && f() == 1) ; if (true || f() == 1) ; out <- 1; advance(); } int f() { out <- 100; return 1;")) (silence 1) 1000
        ≡ ended (frames (pos 1 ∷ [])) }
{}

/// `?:` evaluates the arm that is chosen. If it evaluated both, n would be 1.
pub fn one_arm()
    ensures { told (lines (
        codes "processor P [[main]] { output stream int out; int n; int f() { n += 1; return n; }"
        ∷ codes "void main() { int x = true ? 5 : f(); out <- x * 10 + n; advance(); } }"
        ∷ [])) (silence 1) 1000
        ≡ ended (frames (pos 50 ∷ [])) }
{}

/// An assignment reads the old value after the right side. If it read it first, s would become 1.
pub fn old_value_last()
    ensures { told (lines (
        codes "processor P [[main]] { output stream int out; int s; int f() { s = 10; return 1; } void main() { s += f();"
        ∷ codes "out <- s; advance(); } }"
        ∷ [])) (silence 1) 1000
        ≡ ended (frames (pos 11 ∷ [])) }
{}

/// The indices of a selection are evaluated before its name is read. If the name were read first, the element would be 0.
pub fn name_read_last()
    ensures { told (lines (
        codes "processor P [[main]] { output stream int out; int[2] a; int f() { a[0] = 5; return 0; } void main() {"
        ∷ codes "out <- a[f()]; advance(); } }"
        ∷ [])) (silence 1) 1000
        ≡ ended (frames (pos 5 ∷ [])) }
{}

/// Operands and arguments go from left to right: f gives 1, 2, 3 and 4.
pub fn left_to_right()
    ensures { told (lines (
        codes "processor P [[main]] { output stream int out; int n; int f() { n += 1; return n; } int g(int a, int b) {"
        ∷ codes "return 10 * a + b; } void main() { out <- 100 * (f() - f()) + g(f(), f()); advance(); } }"
        ∷ [])) (silence 1) 1000
        ≡ ended (frames (negsuc 65 ∷ [])) }
{}

/// A `for` over a `wrap` takes its values in order, each time that it is begun. If its variable stayed at its end, the fourth
/// output would be 2.
pub fn each_value()
    ensures { told (io (codes "loop { for (wrap<3> i) { out <- i; advance(); } }")) (silence 5) 1000
        ≡ ended (frames (pos 0 ∷ pos 1 ∷ pos 2 ∷ pos 0 ∷ pos 1 ∷ [])) }
{}

/// `continue` goes on with the third part of a `for`. If it went past it, i would stay 1 and the turns would be spent.
pub fn to_the_third_part()
    ensures { told (io (codes "int s; for (int i = 0; i < 4; i += 1) { if (i == 1) continue; s += i; } out <- s; advance();")) (silence 1) 1000
        ≡ ended (frames (pos 5 ∷ [])) }
{}

/// The count of a `loop` is evaluated once, and below 1 nothing is begun.
pub fn count_is_taken_once()
    ensures { told (io (codes "int n = 3; loop (n) { n = 0; out <- 1; } loop (-1) out <- 100; advance();")) (silence 1) 1000
        ≡ ended (frames (pos 3 ∷ [])) }
{}

/// `break` ends the inner loop alone, also after an `advance`, and a local is zero each time that its declaration runs.
pub fn one_loop_is_left()
    ensures { told (io (codes "loop { int k; loop { k += 1; advance(); break; } out <- k; advance(); }")) (silence 5) 1000
        ≡ ended (frames (pos 0 ∷ pos 1 ∷ pos 0 ∷ pos 1 ∷ pos 0 ∷ [])) }
{}

/// `return` drops all that is left of `main`, out of any loop and block.
pub fn all_is_dropped()
    ensures { told (io (codes "loop { out <- 1; loop { advance(); return; } } out <- 100;")) (silence 3) 1000
        ≡ ended (frames (pos 1 ∷ pos 0 ∷ pos 0 ∷ [])) }
{}

/// An inner declaration hides an outer one to the end of its block, also where `main` paused in it.
pub fn hidden_in_a_block()
    ensures { told (io (codes "int x = 1; { int x = 2; out <- x; advance(); } out <- x * 10; advance();")) (silence 3) 1000
        ≡ ended (frames (pos 2 ∷ pos 10 ∷ pos 0 ∷ [])) }
{}

/// Arguments are copied into the parameters.
pub fn arguments_are_copied()
    ensures { told (lines (
        codes "int f(int x) { x += 1; return x; }"
        ∷ codes "processor P [[main]] { output stream int out;"
        ∷ codes "void main() { int x = 3; out <- f(x) * 10 + x; advance(); } }"
        ∷ [])) (silence 1) 1000
        ≡ ended (frames (pos 43 ∷ [])) }
{}

/// A function of a namespace has the constants of the namespace round it.
pub fn function_of_a_namespace()
    ensures { told (lines (
        codes "namespace N { let k = 3; int f(int x) { return x * k; } }"
        ∷ codes "processor P [[main]] { input stream int in; output stream int out; void main() { out <- N::f(in); advance(); } }"
        ∷ [])) (input (pos 5 ∷ [])) 1000
        ≡ ended (frames (pos 15 ∷ [])) }
{}

/// An assignment computes in the type of both sides and then casts. In `int32` the divisor would be 0.
pub fn computed_wide()
    ensures { told (io (codes "int x = -5; x /= 4294967296; out <- x; advance();")) (silence 1) 1000 ≡ ended (frames (pos 0 ∷ [])) }
{}

/// The least number by -1 gives itself, and its remainder is 0.
pub fn least_by_minus_one()
    ensures { told (lines (
        codes "processor P [[main]] { input stream int in; output stream int q, r;"
        ∷ codes "void main() { loop { q <- in / -1; r <- in % -1; advance(); } } }"
        ∷ [])) (input (negsuc 2147483647 ∷ [])) 1000
        ≡ ended (item.Frame 0 (negsuc 2147483647 ∷ pos 0 ∷ []) ∷ []) }
{}

/// What is stored is converted, by floor modulus to a `wrap` and held in the range of a `clamp`, and an index goes round.
pub fn stores_convert()
    ensures { told (lines (
        codes "processor P [[main]] { output stream int x, y, z; wrap<5> w; clamp<5> c = 4; int[3] a; int i = -1;"
        ∷ codes "void main() { w -= 1; c += 1; a[2] = 8; x <- w; y <- c; z <- a[i]; advance(); } }"
        ∷ [])) (silence 1) 1000
        ≡ ended (item.Frame 0 (pos 4 ∷ pos 4 ∷ pos 8 ∷ []) ∷ []) }
{}
