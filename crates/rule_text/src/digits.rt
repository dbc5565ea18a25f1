ghost use Rattle.std.specs.Prelude.{◌≡◌, ◌≤◌, ◌<◌, drop, false};
ghost use Rattle.std.specs.Fmt.{decimal, digit_glyph};
ghost use Rattle.rule_text.specs.Address6Text.{hexadecimal};

/// How many digits a number of 32 bits has at most.
pub(crate) const MOST_DIGITS: usize = 10;

/// How many hexadecimal digits a number of 16 bits has at most.
pub(crate) const MOST_HEX_DIGITS: usize = 4;

/// Writes the decimal digits of `n` to the end of the buffer, and answers where they begin.
pub(crate) fn put_digits(n: u32, buffer: &mut [u8; MOST_DIGITS]) -> usize
    ensures digits { drop result buffer.new ≡ decimal n }
    ensures within { result ≤ MOST_DIGITS }
{
    let mut rest = n;
    let mut at = MOST_DIGITS;
    while rest >= 10 {
        at -= 1;
        buffer[at] = b'0' + (rest % 10) as u8;
        rest /= 10;
    }
    at -= 1;
    buffer[at] = b'0' + rest as u8;
    at
}

/// The ASCII digit of a number below 16, in lower case.
fn hex_digit(n: u16) -> u8
    requires { n < 16 }
    ensures { result ≡ digit_glyph false n }
{
    if n < 10 {
        b'0' + n as u8
    } else {
        b'a' + (n - 10) as u8
    }
}

/// Writes the hexadecimal digits of `n` to the end of the buffer, and answers where they begin.
pub(crate) fn put_hex_digits(n: u16, buffer: &mut [u8; MOST_HEX_DIGITS]) -> usize
    ensures digits { drop result buffer.new ≡ hexadecimal n }
    ensures within { result ≤ MOST_HEX_DIGITS }
{
    let mut rest = n;
    let mut at = MOST_HEX_DIGITS;
    while rest >= 16 {
        at -= 1;
        buffer[at] = hex_digit(rest % 16);
        rest /= 16;
    }
    at -= 1;
    buffer[at] = hex_digit(rest);
    at
}
