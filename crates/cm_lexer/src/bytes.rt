ghost use Rattle.std.specs.Prelude.{◌≡◌, ◌≤◌, length, nat_lt, slice_index};
ghost use Rattle.std.specs.Char.{digit_value as value_of_digit};
ghost use Rattle.std.specs.List.{prefix_len};
ghost use Rattle.cm_tree.specs.Pieces as spec;

pub fn is_space(byte: u8) -> bool
    ensures { result ≡ spec.is_space byte }
{
    byte == b' ' || byte == b'\t' || byte == b'\n' || byte == b'\r'
}

pub fn is_letter(byte: u8) -> bool
    ensures { result ≡ spec.is_letter byte }
{
    byte.is_ascii_alphabetic() || byte == b'_'
}

fn is_word_byte(byte: u8) -> bool
    ensures { result ≡ spec.is_word_byte byte }
{
    is_letter(byte) || byte.is_ascii_digit()
}

/// The value of a digit or a letter, and 36 for any other byte.
pub fn digit_value(byte: u8) -> u64
    ensures value { result ≡ value_of_digit byte }
    ensures small { result ≤ 36 }
{
    match byte {
        b'0'..=b'9' => u64::from(byte - b'0'),
        b'A'..=b'Z' => u64::from(byte - b'A') + 10,
        b'a'..=b'z' => u64::from(byte - b'a') + 10,
        _ => 36,
    }
}

/// How many letters, digits and `_` stand at the front.
pub fn word_len(text: &[u8]) -> usize
    ensures value { result ≡ prefix_len spec.is_word_byte text.now }
    ensures within { result ≤ length text.now }
{
    text.iter().take_while(|byte| is_word_byte(**byte)).count()
}

/// How many digits of the radix stand at the front.
pub fn digits_len(radix: u64, text: &[u8]) -> usize
    ensures value { result ≡ prefix_len (λ byte. nat_lt (value_of_digit byte) radix) text.now }
    ensures within { result ≤ length text.now }
{
    text.iter()
        .take_while(|byte| digit_value(**byte) < radix)
        .count()
}

/// How many bytes stand at the front before the end of the line.
pub fn line_len(text: &[u8]) -> usize
    ensures value { result ≡ prefix_len spec.is_in_line text.now }
    ensures within { result ≤ length text.now }
{
    text.iter().take_while(|byte| **byte != b'\n').count()
}

/// The byte at this index, or 0 where the text ends before it.
pub fn byte_at(text: &[u8], at: usize) -> u8
    ensures { result ≡ slice_index text.now at }
{
    if at < text.len() { text[at] } else { 0 }
}
