//! What holds of the code that is appended. Each function is a theorem: it does nothing, and its contract says what is
//! proved. `proofs/Public` has a lemma for each clause, which the proofs of other crates cite.
ghost use Rattle.std.specs.Prelude.{◌≡◌, ◌≢◌, ◌∷◌, [], ℤ, pos, true, false};
ghost use Rattle.cm_base.specs.declared.host.Scalar.{Scalar};
ghost use Rattle.cm_base.specs.Scripts.{IsOfKind};
ghost use Rattle.cm_core.specs.declared.operator.UnaryOp.{UnaryOp};
ghost use Rattle.cm_core.specs.declared.operator.BinaryOp.{BinaryOp};
ghost use Rattle.cm_core.specs.Operators.{unary, binary};
ghost use Rattle.cm_core.specs.Types.{binary_kind};
ghost use Rattle.cm_core.specs.Typing.{ComputesIn, IsWide, IsKind, TakesKind, is_shift, is_division};
ghost use Rattle.cm_scalar.specs.Scalars.{converted};
ghost use Rattle.operator_code.specs.declared.scratch.Scratch.{Scratch};
ghost use Rattle.operator_code.specs.Operands.{type_of, bits_of};
ghost use Rattle.operator_code.specs.Operators.{operator_code, shift_code, division_code, unary_code};
ghost use Rattle.operator_code.specs.Conversions.{conversion_code};
ghost use Rattle.operator_code.specs.Promises.{Computes, Turns, IsTypedAs, IsTypedWith};
ghost use Rattle.straight_code.specs.Straight.{AreStraight};

/// The code of an operator computes it on the bits of its operands, the last one first, in one reduction for each
/// instruction other than a constant.
pub fn operators_compute()
    ensures operator { (op : BinaryOp) (kind : Scalar) → ComputesIn op kind → is_shift op ≡ false → is_division op ≡ false →
        (x y : ℤ) → IsOfKind kind x → IsOfKind kind y →
        Computes (operator_code op kind) (bits_of kind y ∷ bits_of kind x ∷ []) (bits_of (binary_kind op kind) (binary op kind x y)) }
    ensures shift { (op : BinaryOp) (kind amount : Scalar) → is_shift op ≡ true → IsWide kind → IsWide amount →
        (x y : ℤ) → IsOfKind kind x → IsOfKind amount y →
        Computes (shift_code op kind amount) (bits_of amount y ∷ bits_of kind x ∷ []) (bits_of kind (binary op kind x y)) }
    ensures division { (op : BinaryOp) (kind : Scalar) (d : ℤ) → is_division op ≡ true → IsWide kind → IsOfKind kind d → d ≢ pos 0 →
        (x : ℤ) → IsOfKind kind x →
        Computes (division_code op kind d) (bits_of kind d ∷ bits_of kind x ∷ []) (bits_of kind (binary op kind x d)) }
    ensures unary { (op : UnaryOp) (kind : Scalar) → TakesKind op kind → (x : ℤ) → IsOfKind kind x →
        Computes (unary_code op kind) (bits_of kind x ∷ []) (bits_of kind (unary op kind x)) }
{}

/// The code of a conversion takes the bits of a scalar to those of what it is converted to, and changes locals for
/// scratch at most.
pub fn conversions_convert()
    ensures { (s : Scratch) (from to : Scalar) → IsKind from → IsKind to → (x : ℤ) → IsOfKind from x →
        Turns s (conversion_code s from to) (bits_of from x ∷ []) (bits_of to (converted to x)) }
{}

/// All of this code is typed.
pub fn code_is_typed()
    ensures operator { (op : BinaryOp) (kind : Scalar) → ComputesIn op kind → is_shift op ≡ false → is_division op ≡ false →
        IsTypedAs (operator_code op kind) (type_of kind ∷ type_of kind ∷ []) (type_of (binary_kind op kind)) }
    ensures shift { (op : BinaryOp) (kind amount : Scalar) → is_shift op ≡ true →
        IsTypedAs (shift_code op kind amount) (type_of amount ∷ type_of kind ∷ []) (type_of kind) }
    ensures division { (op : BinaryOp) (kind : Scalar) (d : ℤ) → is_division op ≡ true →
        IsTypedAs (division_code op kind d) (type_of kind ∷ type_of kind ∷ []) (type_of kind) }
    ensures unary { (op : UnaryOp) (kind : Scalar) → TakesKind op kind → IsTypedAs (unary_code op kind) (type_of kind ∷ []) (type_of kind) }
    ensures conversion { (s : Scratch) (from to : Scalar) → IsTypedWith s (conversion_code s from to) (type_of from) (type_of to) }
{}

/// All of this code is straight.
pub fn code_is_straight()
    ensures operator { (op : BinaryOp) (kind : Scalar) → AreStraight (operator_code op kind) }
    ensures shift { (op : BinaryOp) (kind amount : Scalar) → AreStraight (shift_code op kind amount) }
    ensures division { (op : BinaryOp) (kind : Scalar) (d : ℤ) → AreStraight (division_code op kind d) }
    ensures unary { (op : UnaryOp) (kind : Scalar) → AreStraight (unary_code op kind) }
    ensures conversion { (s : Scratch) (from to : Scalar) → AreStraight (conversion_code s from to) }
{}
