//! Reading a colour from a text.
ghost use Rattle.std.specs.Prelude.{◌≡◌, ◌<◌, ◌≤◌, ◌^◌, true, length, IfSome};
ghost use Rattle.std.specs.Char.{digit_value, is_ascii_hexdigit};
ghost use Rattle.std.specs.Option.{option_map};
ghost use Rattle.cell_base.specs.Color.{channels};
ghost use Rattle.cell_base.specs.ColorText.{hex_reading, scaled, sharp_reading, upper_bits, x11_reading};

use crate::color::RgbColor;

// The value of a hex digit.
fn hex_digit(byte: u8) -> u8
    requires { is_ascii_hexdigit byte ≡ true }
    ensures value { result ≡ digit_value byte }
    ensures small { result < 16 }
{
    match byte {
        b'0'..=b'9' => byte - b'0',
        b'a'..=b'f' => byte - b'a' + 10,
        _ => byte - b'A' + 10,
    }
}

// The value of hex digits; `None` where a byte is not a hex digit.
fn hex_value(digits: &[u8]) -> Option<u32>
    requires { length digits.now ≤ 4 }
    ensures value { result ≡ hex_reading digits.now }
    ensures small { IfSome result (λ v. v < 16 ^ length digits.now) }
{
    let mut value = 0u32;
    for digit in digits {
        if !digit.is_ascii_hexdigit() {
            return None;
        }
        value = 16 * value + u32::from(hex_digit(*digit));
    }
    Some(value)
}

// The upper eight bits of a channel.
fn upper_bits(digits: &[u8]) -> Option<u8>
    requires some { 1 ≤ length digits.now }
    requires few { length digits.now ≤ 4 }
    ensures { result ≡ upper_bits digits.now }
{
    let value = hex_value(digits)?;
    let upper = match digits.len() {
        1 => 16 * value,
        2 => value,
        3 => value / 16,
        _ => value / 256,
    };
    Some(upper as u8)
}

// A channel of 1 to 4 digits, scaled to 0 to 255.
fn scaled(digits: &[u8]) -> Option<u8>
    ensures { result ≡ scaled digits.now }
{
    if digits.is_empty() || digits.len() > 4 {
        return None;
    }
    let value = hex_value(digits)?;
    let scaled = match digits.len() {
        1 => 255 * value / 15,
        2 => 255 * value / 255,
        3 => 255 * value / 4095,
        _ => 255 * value / 65535,
    };
    Some(scaled as u8)
}

// Reads the text after `#`.
pub(crate) fn read_sharp(digits: &[u8]) -> Option<RgbColor>
    ensures { option_map channels result ≡ sharp_reading digits.now }
{
    let n = digits.len() / 3;
    if digits.len() != 3 * n || n == 0 || n > 4 {
        return None;
    }
    let red = upper_bits(&digits[..n])?;
    let green = upper_bits(&digits[n..2 * n])?;
    let blue = upper_bits(&digits[2 * n..])?;
    Some(RgbColor::new_8bpc(red, green, blue))
}

// Reads the text after `rgb:`.
pub(crate) fn read_x11(text: &str) -> Option<RgbColor>
    ensures { option_map channels result ≡ x11_reading text.now }
{
    let (red, rest) = text.split_once('/')?;
    let (green, blue) = rest.split_once('/')?;
    let red = scaled(red.as_bytes())?;
    let green = scaled(green.as_bytes())?;
    let blue = scaled(blue.as_bytes())?;
    Some(RgbColor::new_8bpc(red, green, blue))
}
