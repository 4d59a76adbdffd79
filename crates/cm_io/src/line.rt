ghost use Rattle.std.specs.Prelude.{◌≡◌, ◌<◌, ◌++◌, OnOk};
ghost use Rattle.cm_io.specs.Lines.{hex_digit, shown, escaped};

use std::alloc::AllocError;

/// Puts a name behind the bytes of a line, so that the line stays one: control bytes are put as `\xNN`, with
/// two hexadecimal digits in lower case. With an error the line has the first bytes of the name, or none.
pub fn push_name(line: &mut Vec<u8>, name: &str) -> Result<(), AllocError>
    ensures { OnOk result (line.new.items ≡ line.old.items ++ escaped name.now) }
{
    for byte in name.as_bytes() {
        push_shown(line, *byte)?;
    }
    Ok(())
}

fn push_shown(line: &mut Vec<u8>, byte: u8) -> Result<(), AllocError>
    ensures { OnOk result (line.new.items ≡ line.old.items ++ shown byte) }
{
    if byte < 32 || byte == 127 {
        line.extend_from_slice(&[b'\\', b'x', digit(byte / 16), digit(byte % 16)])
    } else {
        Ok(line.push(byte)?)
    }
}

/// The hexadecimal digit of a number below 16.
fn digit(number: u8) -> u8
    requires { number < 16 }
    ensures { result ≡ hex_digit number }
{
    if number < 10 {
        b'0' + number
    } else {
        b'a' + (number - 10)
    }
}
