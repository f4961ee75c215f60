//! Bytes as a terminal may be shown them.
ghost use Rattle.std.specs.Prelude.{◌≡◌, ◌++◌, ◌<◌, IfOk, OnOk, flat_map, string_bytes};
ghost use Rattle.kcp_loopback.specs.Escaped.{escaped, is_printable, hex_digit, shown};

use std::alloc::{AllocError, Global};

/// Returns whether a byte is a printable character of ASCII.
fn is_printable(byte: u8) -> bool
    ensures { result ≡ is_printable byte }
{
    (0x20..0x7f).contains(&byte)
}

/// Returns the hexadecimal digit of a number below 16.
fn hex_digit(number: u8) -> char
    requires { number < 16 }
    ensures { result ≡ hex_digit number }
{
    if number < 10 {
        char::from(b'0' + number)
    } else {
        char::from(b'a' - 10 + number)
    }
}

/// Adds a byte, as it is shown.
fn push_shown(text: &mut String, byte: u8) -> Result<(), AllocError>
    ensures { OnOk result (string_bytes text.new ≡ string_bytes text.old ++ shown byte) }
{
    if is_printable(byte) {
        return text.push(char::from(byte));
    }
    text.push_str("\\x")?;
    text.push(hex_digit(byte / 16))?;
    text.push(hex_digit(byte % 16))
}

/// Returns bytes as a terminal may be shown them: printable ASCII as it is, and each other byte by its number. The error is running out of memory.
pub fn escaped(alloc: Global, bytes: &[u8]) -> Result<String, AllocError>
    ensures { IfOk result (λ text. string_bytes text ≡ escaped bytes.now) }
{
    let mut text = String::new(alloc);
    for byte in bytes {
        push_shown(&mut text, *byte)?;
    }
    Ok(text)
}
