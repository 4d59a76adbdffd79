use crate::{read_scalars, write_scalars};
use cm_base::{Scalar, Scalars};

#[test]
fn numbers_are_read_as_scalars_of_their_kinds(rt: HostRuntime) {
    let kinds = [
        Scalar::Int32,
        Scalar::Bool,
        Scalar::Wrap(5),
        Scalar::Clamp(5),
    ];
    let bytes = [
        254u8, 255, 255, 255, 7, 0, 0, 0, 255, 255, 255, 255, 9, 0, 0, 0,
    ];
    let mut into = Scalars::from_slice(rt.alloc(), &[0; 4]).expect(&rt, "memory");
    read_scalars(&kinds, &bytes, &mut into);
    assert!(rt; into.as_slice() == [-2, 1, 4, 4].as_slice());
}

#[test]
fn missing_bytes_count_as_zeros(rt: HostRuntime) {
    let kinds = [Scalar::Int64, Scalar::Int64, Scalar::Int32];
    let bytes = [0u8, 0, 0, 0, 1, 0, 0, 0, 5, 1];
    let mut into = Scalars::from_slice(rt.alloc(), &[9; 3]).expect(&rt, "memory");
    read_scalars(&kinds, &bytes, &mut into);
    assert!(rt; into.as_slice() == [4_294_967_296, 261, 0].as_slice());
}

#[test]
fn scalars_are_written_low_byte_first(rt: HostRuntime) {
    let mut memory = [170u8; 14];
    write_scalars(&[Scalar::Int64, Scalar::Bool], &[-2, 1], &mut memory, 1);
    let expected = [
        170u8, 254, 255, 255, 255, 255, 255, 255, 255, 1, 0, 0, 0, 170,
    ];
    assert!(rt; memory.as_slice() == expected.as_slice());
}
