//! What holds of the definitions. Each function is a theorem: it does nothing, and its contract
//! says what is proved. The proofs of other crates cite these laws from `proofs/Public`, which has
//! a lemma for each clause.
ghost use Rattle.std.specs.Prelude.{◌≡◌, ◌≢◌, ◌↔◌, ◌⊎◌, ℕ, ◌+◌, ◌-◌, ◌*◌, ◌/◌, ◌%◌, ◌^◌, ◌<◌, ◌≤◌, ◌==◌, if◌then◌else◌, not, ℤ, pos, negsuc, ◌+ℤ◌, ◌-ℤ◌, ◌*ℤ◌, neg_ℤ, ◌≤ℤ◌, IsTrue, FitsSigned, int_lt, int_le, int_div, int_rem, bit_and, bit_or, bit_xor};
ghost use Rattle.std.specs.Int.{Width, w32, w64, cast_signed, cast_unsigned, int_shr};
ghost use Rattle.std.specs.Ordering.{int_eq};
ghost use mir.Val.{bits};
ghost use Rattle.cm_number.specs.Conversion.{to_signed, to_unsigned, to_wrap, to_clamp, to_bool, floor_modulus, nearest, IsWrapped, IsFloorModulus, IsNearest};
ghost use Rattle.cm_number.specs.Division.{truncated_quotient, quotient, remainder, least, IsTruncatedDivision};
ghost use Rattle.cm_number.specs.Shift.{shift_amount, floor_quotient, left_shift, right_shift, zero_filled_shift, IsFloorQuotient};
ghost use Rattle.cm_number.specs.Bitwise.{bitwise_and, bitwise_or, bitwise_xor, bitwise_not};

/// Each conversion gives the only number with its property: of the type, and differing by a
/// multiple of the count of its numbers, or nearest.
pub fn conversions()
    ensures to_signed { (w : Width) (z r : ℤ) → (r ≡ to_signed w z) ↔ IsWrapped w z r }
    ensures to_unsigned { (w : Width) (z : ℤ) (r : ℕ) → (r ≡ to_unsigned w z)
        ↔ IsFloorModulus (2 ^ bits w) z (pos r) }
    ensures floor_modulus { (n : ℕ) (z : ℤ) (r : ℕ) → 0 < n → (r ≡ floor_modulus z n)
        ↔ IsFloorModulus n z (pos r) }
    ensures to_wrap { (n : ℕ) (z r : ℤ) → 0 < n → (r ≡ to_wrap n z) ↔ IsFloorModulus n z r }
    ensures nearest { (low high z r : ℤ) → low ≤ℤ high → (r ≡ nearest low high z)
        ↔ IsNearest low high z r }
    ensures to_clamp { (n : ℕ) (z r : ℤ) → (r ≡ to_clamp n z)
        ↔ IsNearest (pos 0) (pos (n - 1)) z r }
    ensures to_bool { (z : ℤ) → IsTrue (to_bool z) ↔ (z ≢ pos 0) }
{}

/// To wrap on the way changes nothing.
pub fn wrapping()
    ensures fits { (w : Width) (z : ℤ) → FitsSigned w z → to_signed w z ≡ z }
    ensures twice { (w : Width) (z : ℤ) → to_signed w (to_signed w z) ≡ to_signed w z }
    ensures narrower { (narrow wide : Width) (z : ℤ) → bits narrow ≤ bits wide →
        to_signed narrow (to_signed wide z) ≡ to_signed narrow z }
    ensures add_left { (w : Width) (a b : ℤ) → to_signed w (to_signed w a +ℤ b)
        ≡ to_signed w (a +ℤ b) }
    ensures add_right { (w : Width) (a b : ℤ) → to_signed w (a +ℤ to_signed w b)
        ≡ to_signed w (a +ℤ b) }
    ensures sub_left { (w : Width) (a b : ℤ) → to_signed w (to_signed w a -ℤ b)
        ≡ to_signed w (a -ℤ b) }
    ensures sub_right { (w : Width) (a b : ℤ) → to_signed w (a -ℤ to_signed w b)
        ≡ to_signed w (a -ℤ b) }
    ensures mul_left { (w : Width) (a b : ℤ) → to_signed w (to_signed w a *ℤ b)
        ≡ to_signed w (a *ℤ b) }
    ensures mul_right { (w : Width) (a b : ℤ) → to_signed w (a *ℤ to_signed w b)
        ≡ to_signed w (a *ℤ b) }
    ensures neg { (w : Width) (a : ℤ) → to_signed w (neg_ℤ (to_signed w a))
        ≡ to_signed w (neg_ℤ a) }
    ensures modulus { (w : Width) (z : ℤ) (n : ℕ) → FitsSigned w z →
        floor_modulus (to_signed w z) n ≡ floor_modulus z n }
{}

/// The bits of a number of the type are its two's complement: a number below 2 to the width, and
/// after a conversion that of the number before it. To read bits as signed is conversion.
pub fn bits_of_numbers()
    ensures below { (w : Width) (z : ℤ) → FitsSigned w z → cast_unsigned w z < 2 ^ bits w }
    ensures unsigned { (w : Width) (z : ℤ) → FitsSigned w z → to_unsigned w z ≡ cast_unsigned w z }
    ensures converted { (w : Width) (z : ℤ) → cast_unsigned w (to_signed w z) ≡ to_unsigned w z }
    ensures signed { (w : Width) (n : ℕ) → n < 2 ^ bits w → cast_signed w n ≡ to_signed w (pos n) }
{}

/// The truncated quotient and the remainder are the only two numbers that divide with rounding
/// toward 0. At a signed type the quotient is the truncated one, except at the least number by -1.
pub fn division()
    ensures unique { (v d q r : ℤ) → d ≢ pos 0 →
        ((q ≡ truncated_quotient v d) × (r ≡ remainder v d)) ↔ IsTruncatedDivision v d q r }
    ensures quotient { (w : Width) (v d : ℤ) → FitsSigned w v →
        ((v ≡ least w) × (d ≡ negsuc 0) → ⊥) →
        quotient w v d ≡ truncated_quotient v d }
    ensures least_quotient { (w : Width) → quotient w (least w) (negsuc 0) ≡ least w }
    ensures least_remainder { (w : Width) → remainder (least w) (negsuc 0) ≡ pos 0 }
{}

/// The operators' results are numbers of the type.
pub fn results()
    ensures to_signed { (w : Width) (z : ℤ) → FitsSigned w (to_signed w z) }
    ensures widened { (narrow wide : Width) (a : ℤ) → bits narrow ≤ bits wide →
        FitsSigned narrow a → FitsSigned wide a }
    ensures quotient { (w : Width) (v d : ℤ) → FitsSigned w (quotient w v d) }
    ensures remainder { (w : Width) (v d : ℤ) → FitsSigned w v → FitsSigned w (remainder v d) }
    ensures left_shift { (w : Width) (v by : ℤ) → FitsSigned w (left_shift w v by) }
    ensures right_shift { (w : Width) (v by : ℤ) → FitsSigned w v →
        FitsSigned w (right_shift w v by) }
    ensures zero_filled_shift { (w : Width) (v by : ℤ) → FitsSigned w (zero_filled_shift w v by) }
    ensures bitwise_and { (w : Width) (a b : ℤ) → FitsSigned w (bitwise_and w a b) }
    ensures bitwise_or { (w : Width) (a b : ℤ) → FitsSigned w (bitwise_or w a b) }
    ensures bitwise_xor { (w : Width) (a b : ℤ) → FitsSigned w (bitwise_xor w a b) }
    ensures bitwise_not { (w : Width) (a : ℤ) → FitsSigned w a → FitsSigned w (bitwise_not a) }
{}

/// A shift to the left is the wrapped product with a power of 2, and one to the right is division
/// by a power of 2, rounding down: of the number, or of its two's complement. The number of
/// places is the floor modulus of the amount by the width.
pub fn shifts()
    ensures floor_quotient { (n : ℕ) (z q : ℤ) → 0 < n → (q ≡ floor_quotient z n)
        ↔ IsFloorQuotient n z q }
    ensures left { (w : Width) (v by r : ℤ) →
        (r ≡ left_shift w v by) ↔ IsWrapped w (v *ℤ pos (2 ^ shift_amount w by)) r }
    ensures right { (w : Width) (v by q : ℤ) →
        (q ≡ right_shift w v by) ↔ IsFloorQuotient (2 ^ shift_amount w by) v q }
    ensures right_zero { (w : Width) (v by r : ℤ) → (r ≡ zero_filled_shift w v by)
        ↔ IsWrapped w (floor_quotient (pos (to_unsigned w v)) (2 ^ shift_amount w by)) r }
    ensures amount { (w : Width) (by : ℤ) → shift_amount w by < bits w }
    ensures amount_from_bits { (u w : Width) (by : ℤ) → FitsSigned u by →
        cast_unsigned u by % bits w ≡ shift_amount w by }
    ensures amount_wrapped { (u w : Width) (by : ℤ) → shift_amount w (to_signed u by)
        ≡ shift_amount w by }
{}

/// WebAssembly's instructions for sums, differences, products and division compute the operators
/// on the bits x and y of numbers that fit the width. `div_s` traps at the least number by -1, and
/// `0 - a` serves for a divisor of -1.
pub fn arithmetic_instructions()
    ensures add { (w : Width) (a b : ℤ) → FitsSigned w a → FitsSigned w b →
        let x = cast_unsigned w a in let y = cast_unsigned w b in
        cast_unsigned w (to_signed w (a +ℤ b)) ≡ (x + y) % 2 ^ bits w }
    ensures sub { (w : Width) (a b : ℤ) → FitsSigned w a → FitsSigned w b →
        let x = cast_unsigned w a in let y = cast_unsigned w b in
        cast_unsigned w (to_signed w (a -ℤ b)) ≡ (x + (2 ^ bits w - y)) % 2 ^ bits w }
    ensures neg { (w : Width) (a : ℤ) → FitsSigned w a →
        let x = cast_unsigned w a in
        cast_unsigned w (to_signed w (neg_ℤ a)) ≡ (0 + (2 ^ bits w - x)) % 2 ^ bits w }
    ensures mul { (w : Width) (a b : ℤ) → FitsSigned w a → FitsSigned w b →
        let x = cast_unsigned w a in let y = cast_unsigned w b in
        cast_unsigned w (to_signed w (a *ℤ b)) ≡ (x * y) % 2 ^ bits w }
    ensures div_s { (w : Width) (a b : ℤ) → FitsSigned w a → FitsSigned w b →
        ((a ≡ least w) × (b ≡ negsuc 0) → ⊥) →
        let x = cast_unsigned w a in let y = cast_unsigned w b in
        cast_unsigned w (quotient w a b)
        ≡ cast_unsigned w (int_div (cast_signed w x) (cast_signed w y)) }
    ensures div_minus_one { (w : Width) (a : ℤ) → FitsSigned w a →
        let x = cast_unsigned w a in
        cast_unsigned w (quotient w a (negsuc 0)) ≡ (0 + (2 ^ bits w - x)) % 2 ^ bits w }
    ensures rem_s { (w : Width) (a b : ℤ) → FitsSigned w a → FitsSigned w b →
        let x = cast_unsigned w a in let y = cast_unsigned w b in
        cast_unsigned w (remainder a b)
        ≡ cast_unsigned w (int_rem (cast_signed w x) (cast_signed w y)) }
    ensures rem_minus_one { (w : Width) (a : ℤ) → cast_unsigned w (remainder a (negsuc 0)) ≡ 0 }
    ensures div_u { (w : Width) (a b : ℤ) → FitsSigned w a → pos 0 ≤ℤ a → pos 0 ≤ℤ b →
        let x = cast_unsigned w a in let y = cast_unsigned w b in
        cast_unsigned w (quotient w a b) ≡ x / y }
    ensures rem_u { (w : Width) (a b : ℤ) → pos 0 ≤ℤ a → pos 0 ≤ℤ b →
        let x = cast_unsigned w a in let y = cast_unsigned w b in
        cast_unsigned w (remainder a b) ≡ x % y }
{}

/// WebAssembly's instructions on bits and its shifts compute the operators. A shift takes its
/// amount from any bits y that have it modulo the width.
pub fn bit_instructions()
    ensures and { (w : Width) (a b : ℤ) → FitsSigned w a → FitsSigned w b →
        let x = cast_unsigned w a in let y = cast_unsigned w b in
        cast_unsigned w (bitwise_and w a b) ≡ bit_and x y }
    ensures or { (w : Width) (a b : ℤ) → FitsSigned w a → FitsSigned w b →
        let x = cast_unsigned w a in let y = cast_unsigned w b in
        cast_unsigned w (bitwise_or w a b) ≡ bit_or x y }
    ensures xor { (w : Width) (a b : ℤ) → FitsSigned w a → FitsSigned w b →
        let x = cast_unsigned w a in let y = cast_unsigned w b in
        cast_unsigned w (bitwise_xor w a b) ≡ bit_xor x y }
    ensures not { (w : Width) (a : ℤ) → FitsSigned w a →
        let x = cast_unsigned w a in
        cast_unsigned w (bitwise_not a) ≡ bit_xor x (2 ^ bits w - 1) }
    ensures shl { (w : Width) (a by : ℤ) (y : ℕ) → FitsSigned w a →
        y % bits w ≡ shift_amount w by →
        let x = cast_unsigned w a in
        cast_unsigned w (left_shift w a by) ≡ (x * 2 ^ (y % bits w)) % 2 ^ bits w }
    ensures shr_s { (w : Width) (a by : ℤ) (y : ℕ) → FitsSigned w a →
        y % bits w ≡ shift_amount w by →
        let x = cast_unsigned w a in
        cast_unsigned w (right_shift w a by)
        ≡ cast_unsigned w (int_shr (cast_signed w x) (y % bits w)) }
    ensures shr_u { (w : Width) (a by : ℤ) (y : ℕ) → FitsSigned w a →
        y % bits w ≡ shift_amount w by →
        let x = cast_unsigned w a in
        cast_unsigned w (zero_filled_shift w a by) ≡ x / 2 ^ (y % bits w) }
{}

/// WebAssembly's comparisons on bits tell what the comparisons of the numbers tell.
pub fn comparison_instructions()
    ensures eq { (w : Width) (a b : ℤ) → FitsSigned w a → FitsSigned w b →
        let x = cast_unsigned w a in let y = cast_unsigned w b in
        (x == y) ≡ int_eq a b }
    ensures lt_s { (w : Width) (a b : ℤ) → FitsSigned w a → FitsSigned w b →
        let x = cast_unsigned w a in let y = cast_unsigned w b in
        int_lt (cast_signed w x) (cast_signed w y) ≡ int_lt a b }
    ensures le_s { (w : Width) (a b : ℤ) → FitsSigned w a → FitsSigned w b →
        let x = cast_unsigned w a in let y = cast_unsigned w b in
        int_le (cast_signed w x) (cast_signed w y) ≡ int_le a b }
    ensures gt_s { (w : Width) (a b : ℤ) → FitsSigned w a → FitsSigned w b →
        let x = cast_unsigned w a in let y = cast_unsigned w b in
        int_lt (cast_signed w y) (cast_signed w x) ≡ int_lt b a }
    ensures ge_s { (w : Width) (a b : ℤ) → FitsSigned w a → FitsSigned w b →
        let x = cast_unsigned w a in let y = cast_unsigned w b in
        int_le (cast_signed w y) (cast_signed w x) ≡ int_le b a }
    ensures eqz { (w : Width) (a : ℤ) → FitsSigned w a →
        let x = cast_unsigned w a in
        (x == 0) ≡ not (to_bool a) }
{}

/// WebAssembly's instructions compute the conversions: those between the widths, the one to
/// `wrap<n>` and any index of n elements by two remainders, and the one to `clamp<n>` by two
/// comparisons that select.
pub fn conversion_instructions()
    ensures wrap_i64 { (a : ℤ) → FitsSigned w64 a → cast_unsigned w32 (to_signed w32 a)
        ≡ cast_unsigned w64 a % 2 ^ 32 }
    ensures extend_i32_s { (a : ℤ) → FitsSigned w32 a →
        cast_unsigned w64 a ≡ cast_unsigned w64 (cast_signed w32 (cast_unsigned w32 a)) }
    ensures extend_i32_u { (a : ℤ) → pos 0 ≤ℤ a → cast_unsigned w64 a ≡ cast_unsigned w32 a }
    ensures to_wrap { (w : Width) (n : ℕ) (a : ℤ) → 0 < n → FitsSigned w (pos n) → FitsSigned w a →
        cast_unsigned w (to_wrap n a)
        ≡ (cast_unsigned w (int_rem (cast_signed w (cast_unsigned w a)) (cast_signed w n)) + n)
        % 2 ^ bits w % n }
    ensures nearest { (w : Width) (low high a : ℤ) → FitsSigned w low → FitsSigned w high →
        FitsSigned w a →
        let x = cast_unsigned w a in
        let bottom = cast_unsigned w low in
        let top = cast_unsigned w high in
        cast_unsigned w (nearest low high a)
        ≡ (if int_lt (cast_signed w x) (cast_signed w bottom) then bottom
        else (if int_lt (cast_signed w top) (cast_signed w x) then top else x)) }
{}
