//! Times and counts, read from decimal numerals.
ghost use Rattle.std.specs.Prelude.{◌≡◌, ◌≤◌, ◌<◌, IfSome, min, take};
ghost use Rattle.recordings.specs.Numerals.{count_of, greatest, micro_point, micros, most_digits, number_after};
ghost use Rattle.recordings.specs.Numerals.{number_of, size_of, time_of, zeros};

use fast_float::Numeral;

// The number of the decimal digits of `value` and some more after them, at most `u64::MAX`.
fn with_digits(value: u64, digits: &[u8]) -> u64
    ensures { result ≡ min (number_after value digits.now) greatest }
{
    let mut value = value;
    for digit in digits {
        let unit = u64::from(digit.saturating_sub(b'0'));
        value = value.saturating_mul(10).saturating_add(unit);
    }
    value
}

// How many digits of a number of seconds are before the decimal point once it is in microseconds, at most `u64::MAX`.
fn micro_point(numeral: &Numeral<'_>) -> u64
    ensures { result ≡ min (micro_point numeral.now) greatest }
{
    let point = numeral.whole().len() as u64 + 6;
    let exponent = with_digits(0, numeral.exponent());
    if numeral.is_exponent_negative() {
        point.saturating_sub(exponent)
    } else {
        point.saturating_add(exponent)
    }
}

const MOST_DIGITS: u64 = 19;

const ZEROS: [u8; 19] = *b"0000000000000000000";

// The first `count` digits, or all.
fn first(digits: &[u8], count: usize) -> &[u8]
    ensures { result.now ≡ take count digits.now }
{
    &digits[..count.min(digits.len())]
}

// The microseconds of a number of seconds, at most `u64::MAX`; `point` of its digits are before their decimal point.
#[tactic(auto, unfolding(crate::specs::Numerals::micros))]
fn micros(numeral: &Numeral<'_>, point: usize) -> u64
    requires point { point ≡ micro_point numeral.now }
    requires short { point ≤ most_digits }
    ensures { result ≡ min (micros numeral.now) greatest }
{
    let (whole, fraction) = (numeral.whole(), numeral.fraction());
    let after = point.saturating_sub(whole.len());
    let value = with_digits(0, first(whole, point));
    let value = with_digits(value, first(fraction, after));
    with_digits(value, first(&ZEROS, after.saturating_sub(fraction.len())))
}

const TOO_LATE: u64 = 1 << 63;

/// The microseconds of a text that is a decimal number of seconds from 0 on, with or without an exponent; fractions of
/// a microsecond are cut off. `None` for any other text, and from 2^63 microseconds on.
#[tactic(auto, unfolding(crate::specs::Numerals::time_of))]
pub fn time_of(text: &str) -> Option<u64>
    ensures { result ≡ time_of text.now }
{
    let numeral = Numeral::scan(text.as_bytes());
    if numeral.len() != text.len() || !numeral.has_digits() {
        return None;
    }
    let point = micro_point(&numeral);
    if point > MOST_DIGITS {
        return None;
    }
    let micros = micros(&numeral, point as usize);
    if micros < TOO_LATE {
        Some(micros)
    } else {
        None
    }
}

/// The number of a text that is digits and nothing else, at most `u64::MAX`; `None` for any other text.
#[tactic(auto, unfolding(crate::specs::Numerals::count_of))]
pub(crate) fn count_of(text: &str) -> Option<u64>
    ensures { result ≡ count_of text.now }
{
    let numeral = Numeral::scan(text.as_bytes());
    if numeral.whole().len() != text.len() || text.is_empty() {
        return None;
    }
    Some(with_digits(0, text.as_bytes()))
}

const MOST_SIZE: u64 = 4096;

/// A number of columns or rows, from 1 to 4096.
#[tactic(auto, unfolding(crate::specs::Numerals::size_of))]
pub(crate) fn size_of(text: &str) -> Option<usize>
    ensures size { result ≡ size_of text.now }
    ensures range { IfSome result (λ n. (0 < n) × (n ≤ 4096)) }
{
    let count = count_of(text)?;
    if 0 < count && count <= MOST_SIZE {
        Some(count as usize)
    } else {
        None
    }
}
