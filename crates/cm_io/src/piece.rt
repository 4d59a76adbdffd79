ghost use Rattle.std.specs.Prelude.{◌≡◌, take};

/// The first `most` bytes, or all where there are no more.
pub fn front(bytes: &[u8], most: u64) -> &[u8]
    ensures { result.now ≡ take most bytes.now }
{
    if most < bytes.len() as u64 {
        &bytes[..most as usize]
    } else {
        bytes
    }
}
