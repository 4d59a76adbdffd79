//! What holds of the code that is appended. Each function is a theorem: it does nothing, and its contract says what is
//! proved. `proofs/Whole` and `proofs/Typing` have the lemmas, which the proofs of other crates cite.
ghost use Rattle.std.specs.Prelude.{ℕ, ◌%◌, ◌≡◌, []};
ghost use Rattle.wasm_tree.specs.Typed.{Context};
ghost use Rattle.memory_code.specs.declared.address.Address.{Address};
ghost use Rattle.memory_code.specs.Copies.{copy_code, zero_code, Copies, Zeroes, HasType};
ghost use Rattle.straight_code.specs.Straight.{AreStraight, IsTypedIn};

/// What the code does to memory, and in how many reductions.
pub fn copies_and_zeroes()
    ensures copies { (to from : Address) (width : ℕ) → Copies to from width (copy_code to from width) }
    ensures zeroes { (to : Address) (width : ℕ) → Zeroes to width (zero_code to width) }
{}

/// The code is straight, and typed where the locals of addresses are.
pub fn code_is_straight()
    ensures copy { (to from : Address) (width : ℕ) → AreStraight (copy_code to from width) }
    ensures zero { (to : Address) (width : ℕ) → AreStraight (zero_code to width) }
    ensures copy_typed { (c : Context) (to from : Address) (width : ℕ) → HasType to c → HasType from c → IsTypedIn c (copy_code to from width) [] [] }
    ensures zero_typed { (c : Context) (to : Address) (width : ℕ) → HasType to c → IsTypedIn c (zero_code to width) [] [] }
{}
