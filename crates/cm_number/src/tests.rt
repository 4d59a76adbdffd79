use super::*;

#[test]
fn wraps_to_32_bits(rt: HostRuntime) {
    for (v, want) in [
        (0, 0),
        (-1, -1),
        (0x7fff_ffff, i32::MAX),
        (0x8000_0000, i32::MIN),
        (-0x8000_0000, i32::MIN),
        (-0x8000_0001, i32::MAX),
        (0xffff_ffff, -1),
        (0x1_0000_0000, 0),
        (-0x1_0000_0001, -1),
        (i128::MIN, 0),
        (i128::MAX, -1),
    ] {
        assert_eq!(rt; wrap32(v), want, "at {v}");
    }
}

#[test]
fn wraps_to_64_bits(rt: HostRuntime) {
    for (v, want) in [
        (0, 0),
        (-1, -1),
        (0x7fff_ffff_ffff_ffff, i64::MAX),
        (0x8000_0000_0000_0000, i64::MIN),
        (-0x8000_0000_0000_0000, i64::MIN),
        (-0x8000_0000_0000_0001, i64::MAX),
        (0xffff_ffff_ffff_ffff, -1),
        (0x1_0000_0000_0000_0000, 0),
        (-0x1_0000_0000_0000_0001, -1),
        (i128::MIN, 0),
        (i128::MAX, -1),
    ] {
        assert_eq!(rt; wrap64(v), want, "at {v}");
    }
}

#[test]
fn takes_the_floor_modulus(rt: HostRuntime) {
    for (v, n, want) in [
        (-1, 1, 0),
        (5, 3, 2),
        (-1, 3, 2),
        (-3, 3, 0),
        (-4, 3, 2),
        (i64::MAX, u32::MAX, 0x7fff_ffff),
        (i64::MIN, u32::MAX, 0x7fff_ffff),
        (i64::MIN, 0x8000_0000, 0),
        (-44101, 44100, 44099),
    ] {
        assert!(rt; 1 <= n);
        assert_eq!(rt; floor_mod(v, n), want, "at {v} and {n}");
    }
}

#[test]
fn holds_in_a_range(rt: HostRuntime) {
    for (v, low, high, want) in [
        (5, 0, 10, 5),
        (-1, 0, 10, 0),
        (11, 0, 10, 10),
        (0, 0, 10, 0),
        (10, 0, 10, 10),
        (7, 3, 3, 3),
        (i64::MIN, -5, -2, -5),
        (i64::MAX, -5, -2, -2),
        (i64::MAX, i64::MIN, i64::MAX, i64::MAX),
    ] {
        assert!(rt; low <= high);
        assert_eq!(rt; hold(v, low, high), want, "at {v}");
    }
}

#[test]
fn divides_at_32_bits(rt: HostRuntime) {
    for (v, d, quotient, remainder) in [
        (7i32, 2i32, 3, 1),
        (-7, 2, -3, -1),
        (7, -2, -3, 1),
        (-7, -2, 3, -1),
        (i32::MIN, -1, -0x8000_0000, 0),
        (i32::MAX, -1, -0x7fff_ffff, 0),
        (-1, i32::MAX, 0, -1),
        (i32::MIN, 2, -0x4000_0000, 0),
        (i32::MAX, i32::MIN, 0, 0x7fff_ffff),
    ] {
        assert!(rt; d != 0);
        assert_eq!(rt;
            div_by(i64::from(v), i64::from(d), 32),
            quotient,
            "{v} / {d}"
        );
        assert_eq!(rt;
            rem_by(i64::from(v), i64::from(d), 32),
            remainder,
            "{v} % {d}"
        );
    }
}

#[test]
fn divides_at_64_bits(rt: HostRuntime) {
    for (v, d, quotient, remainder) in [
        (7, 2, 3, 1),
        (-7, 2, -3, -1),
        (7, -2, -3, 1),
        (-7, -2, 3, -1),
        (i64::MIN, -1, i64::MIN, 0),
        (i64::MAX, -1, -i64::MAX, 0),
        (-1, i64::MAX, 0, -1),
        (i64::MIN, -2, 0x4000_0000_0000_0000, 0),
        (i64::MAX, i64::MIN, 0, i64::MAX),
        (-0x8000_0000, -1, 0x8000_0000, 0),
    ] {
        assert!(rt; d != 0);
        assert_eq!(rt; div_by(v, d, 64), quotient, "{v} / {d}");
        assert_eq!(rt; rem_by(v, d, 64), remainder, "{v} % {d}");
    }
}

#[test]
fn shifts_at_32_bits(rt: HostRuntime) {
    for (v, by, op, want) in [
        (1i32, 31, ShiftOp::Left, -0x8000_0000),
        (1, 32, ShiftOp::Left, 1),
        (1, -1, ShiftOp::Left, -0x8000_0000),
        (i32::MIN, 31, ShiftOp::Left, 0),
        (0x1234_5678, 4, ShiftOp::Left, 0x2345_6780),
        (-2, i64::MIN, ShiftOp::Left, -2),
        (1, 31, ShiftOp::Right, 0),
        (-1, 33, ShiftOp::Right, -1),
        (i32::MIN, -31, ShiftOp::Right, -0x4000_0000),
        (-5, 1, ShiftOp::Right, -3),
        (-2, i64::MIN, ShiftOp::Right, -2),
        (1, 32, ShiftOp::RightZero, 1),
        (-1, 33, ShiftOp::RightZero, 0x7fff_ffff),
        (i32::MIN, 31, ShiftOp::RightZero, 1),
        (-5, 1, ShiftOp::RightZero, 0x7fff_fffd),
        (-2, i64::MIN, ShiftOp::RightZero, -2),
    ] {
        assert_eq!(rt; shift(i64::from(v), by, op, 32), want, "at {v} and {by}");
    }
}

#[test]
fn shifts_at_64_bits(rt: HostRuntime) {
    for (v, by, op, want) in [
        (1, 63, ShiftOp::Left, i64::MIN),
        (1, 64, ShiftOp::Left, 1),
        (1, -1, ShiftOp::Left, i64::MIN),
        (0x8000_0000, 1, ShiftOp::Left, 0x1_0000_0000),
        (-1, 32, ShiftOp::Left, -0x1_0000_0000),
        (1, 63, ShiftOp::Right, 0),
        (-1, 65, ShiftOp::Right, -1),
        (i64::MIN, 63, ShiftOp::Right, -1),
        (-5, 1, ShiftOp::Right, -3),
        (-1, 65, ShiftOp::RightZero, i64::MAX),
        (i64::MIN, 63, ShiftOp::RightZero, 1),
        (-5, 1, ShiftOp::RightZero, 0x7fff_ffff_ffff_fffd),
        (-1, 32, ShiftOp::RightZero, 0xffff_ffff),
    ] {
        assert_eq!(rt; shift(v, by, op, 64), want, "at {v} and {by}");
    }
}
