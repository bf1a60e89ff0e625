//! Numbers as digits.

ghost use Rattle.std.specs.Prelude.{◌≡◌, ◌<◌, ◌≤◌, ◌+◌, ◌++◌, OnOk, OnErr, decimal, take, length, vec_len, vec_capacity};
ghost use Rattle.model.specs.Http1Text.{hex_digit, hex_size};

use std::alloc::AllocError;

/// Adds a number in base ten, without leading zeros.
pub fn push_decimal(number: u64, out: &mut Vec<u8>) -> Result<(), AllocError>
    ensures { OnOk result (out.new.items ≡ out.old.items ++ decimal number) }
{
    if number < 10 {
        out.push(b'0' + number as u8)?;
        return Ok(());
    }
    push_decimal(number / 10, out)?;
    out.push(b'0' + (number % 10) as u8)?;
    Ok(())
}

/// The octet of a digit in base sixteen, in lower case.
fn hex_digit(digit: u8) -> u8
    requires { digit < 16 }
    ensures { result ≡ hex_digit digit }
{
    if digit < 10 {
        b'0' + digit
    } else {
        b'a' - 10 + digit
    }
}

/// Adds a number above 0 in base sixteen, without leading zeros.
pub fn push_hex(number: usize, out: &mut Vec<u8>) -> Result<(), AllocError>
    ensures ok { OnOk result (out.new.items ≡ out.old.items ++ hex_size number) }
    ensures kept { take (length out.old.items) out.new.items ≡ out.old.items }
    ensures room { OnOk result (vec_len out.new ≡ vec_len out.old + length (hex_size number)) }
    ensures capacity { vec_capacity out.old ≤ vec_capacity out.new }
    ensures full { OnErr result (vec_capacity out.old < vec_len out.old + length (hex_size number)) }
{
    if number == 0 {
        return Ok(());
    }
    push_hex(number / 16, out)?;
    out.push(hex_digit((number % 16) as u8))?;
    Ok(())
}
