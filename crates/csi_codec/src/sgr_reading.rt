//! SGR: reading a group, by the number that it begins with.
ghost use Rattle.std.specs.Prelude.{◌≡◌, ◌∷◌, [], false, IfNone, IfSome, Some, None, pos, option_map, option_and_then};
ghost use Rattle.csi_codec.specs.Parameters.{number_within};
ghost use Rattle.csi_codec.specs.Rendition.{
  colour,
  colour_form,
  plain_code,
  single_code,
  underline_numbered,
  underline_shape,
  numbered_shape,
  sgr_shape,
  sgr_group,
};
ghost use Rattle.csi_codec.specs.Sources.{read_off, past_semicolon, seen};
ghost use Rattle.csi_codec.specs.declared.parameters.CsiParam.TheVariants.{Integer, P};

use crate::parameters::number_within;
use crate::rendition::{Font, Sgr};
use crate::sources::TokenSource;
use cell_base::{Blink, ColorSpec, Intensity, SrgbaTuple, Underline, VerticalAlign};

/// The number as a byte, if it is 0 to 255.
#[inline(always)]
fn channel(value: i64) -> Option<u8>
    ensures { result ≡ number_within 255 value }
{
    Some(number_within(255, value)? as u8)
}

/// The opaque colour of three numbers, if they are bytes.
#[inline(always)]
fn opaque(red: i64, green: i64, blue: i64) -> Option<ColorSpec>
    ensures { result ≡ option_and_then (λ r. option_and_then (λ g. option_map (λ b. colour r g b 255)
        (number_within 255 blue)) (number_within 255 green)) (number_within 255 red) }
{
    let color = SrgbaTuple(channel(red)?, channel(green)?, channel(blue)?, 255);
    Some(ColorSpec::TrueColor(color))
}

/// The colour of a form with `;`, where `kind` follows the first `;` and `rest` follows the kind.
#[inline(always)]
#[tactic(auto, unfolding(crate::specs::Rendition::colour_form))]
fn semicolon_form<S: TokenSource>(kind: i64, rest: S) -> Option<(ColorSpec, S)>
    ensures { seen S.tokens result ≡ read_off (P 59 ∷ Integer kind ∷ S.tokens rest)
        (colour_form (P 59 ∷ Integer kind ∷ S.tokens rest)) }
{
    match kind {
        5 => {
            let (index, rest) = rest.number_after(b';')?;
            Some((ColorSpec::PaletteIndex(channel(index)?), rest))
        }
        2 => {
            let (red, rest) = rest.number_after(b';')?;
            let (green, rest) = rest.number_after(b';')?;
            let (blue, rest) = rest.number_after(b';')?;
            Some((opaque(red, green, blue)?, rest))
        }
        _ => None,
    }
}

/// The colour of a form with `:`, where `kind` follows the first `:` and `rest` follows the kind.
#[tactic(auto, unfolding(crate::specs::Rendition::colour_form))]
fn colon_form<S: TokenSource>(kind: i64, rest: S) -> Option<(ColorSpec, S)>
    ensures { seen S.tokens result ≡ read_off (P 58 ∷ Integer kind ∷ S.tokens rest)
        (colour_form (P 58 ∷ Integer kind ∷ S.tokens rest)) }
{
    match kind {
        5 => {
            let (index, rest) = rest.number_after(b':')?;
            Some((ColorSpec::PaletteIndex(channel(index)?), rest))
        }
        2 => colon_opaque(rest),
        6 => {
            let rest = rest.past(b':')?;
            let (red, rest) = rest.number_after(b':')?;
            let (green, rest) = rest.number_after(b':')?;
            let (blue, rest) = rest.number_after(b':')?;
            let (alpha, rest) = rest.number_after(b':')?;
            Some((with_alpha(red, green, blue, alpha)?, rest))
        }
        _ => None,
    }
}

/// The colour of four numbers, if they are bytes.
#[inline(always)]
fn with_alpha(red: i64, green: i64, blue: i64, alpha: i64) -> Option<ColorSpec>
    ensures { result
        ≡ option_and_then (λ r. option_and_then (λ g. option_and_then (λ b. option_map (λ a. colour r g b a)
        (number_within 255 alpha)) (number_within 255 blue)) (number_within 255 green)) (number_within 255 red) }
{
    let color = SrgbaTuple(
        channel(red)?,
        channel(green)?,
        channel(blue)?,
        channel(alpha)?,
    );
    Some(ColorSpec::TrueColor(color))
}

/// The opaque colour of the form with `:` and kind 2, where `rest` follows the kind.
#[tactic(auto, unfolding(crate::specs::Rendition::colour_form))]
fn colon_opaque<S: TokenSource>(rest: S) -> Option<(ColorSpec, S)>
    ensures { seen S.tokens result ≡ read_off (P 58 ∷ Integer (pos 2) ∷ S.tokens rest)
        (colour_form (P 58 ∷ Integer (pos 2) ∷ S.tokens rest)) }
{
    let Some((first, rest)) = rest.number_after(b':') else {
        let rest = rest.past(b':')?;
        let (red, rest) = rest.number_after(b':')?;
        let (green, rest) = rest.number_after(b':')?;
        let (blue, rest) = rest.number_after(b':')?;
        return Some((opaque(red, green, blue)?, rest));
    };
    let (second, rest) = rest.number_after(b':')?;
    let (third, rest) = rest.number_after(b':')?;
    match rest.number_after(b':') {
        Some((fourth, rest)) => Some((opaque(second, third, fourth)?, rest)),
        None => Some((opaque(first, second, third)?, rest)),
    }
}

/// The colour of the longest form at the start of the tokens, and the tokens after it.
#[inline(always)]
#[tactic(auto, unfolding(crate::specs::Rendition::colour_form))]
fn color_form<S: TokenSource>(source: S) -> Option<(ColorSpec, S)>
    ensures { seen S.tokens result ≡ read_off (S.tokens source) (colour_form (S.tokens source)) }
{
    if let Some((kind, rest)) = source.number_after(b';') {
        return semicolon_form(kind, rest);
    }
    let (kind, rest) = source.number_after(b':')?;
    colon_form(kind, rest)
}

/// The underline of this kind.
fn underline_numbered(kind: i64) -> Option<Underline>
    ensures { result ≡ underline_numbered kind }
{
    match kind {
        0 => Some(Underline::None),
        1 => Some(Underline::Single),
        2 => Some(Underline::Double),
        3 => Some(Underline::Curly),
        4 => Some(Underline::Dotted),
        5 => Some(Underline::Dashed),
        _ => None,
    }
}

/// The setting that a single number encodes, if there is one.
#[inline(always)]
fn plain_code(value: i64) -> Option<Sgr>
    ensures { result ≡ plain_code value }
{
    single_code(channel(value)?)
}

/// The setting that a single number from 0 to 255 encodes, if there is one.
#[tactic(auto, unfolding(crate::specs::Rendition::single_code))]
#[inline(always)]
fn single_code(code: u8) -> Option<Sgr>
    ensures { result ≡ single_code code }
{
    match code {
        0 => Some(Sgr::Reset),
        1 => Some(Sgr::Intensity(Intensity::Bold)),
        2 => Some(Sgr::Intensity(Intensity::Half)),
        22 => Some(Sgr::Intensity(Intensity::Normal)),
        24 => Some(Sgr::Underline(Underline::None)),
        4 => Some(Sgr::Underline(Underline::Single)),
        21 => Some(Sgr::Underline(Underline::Double)),
        5 => Some(Sgr::Blink(Blink::Slow)),
        6 => Some(Sgr::Blink(Blink::Rapid)),
        25 => Some(Sgr::Blink(Blink::None)),
        3 => Some(Sgr::Italic(true)),
        23 => Some(Sgr::Italic(false)),
        7 => Some(Sgr::Inverse(true)),
        27 => Some(Sgr::Inverse(false)),
        8 => Some(Sgr::Invisible(true)),
        28 => Some(Sgr::Invisible(false)),
        9 => Some(Sgr::StrikeThrough(true)),
        29 => Some(Sgr::StrikeThrough(false)),
        53 => Some(Sgr::Overline(true)),
        55 => Some(Sgr::Overline(false)),
        10 => Some(Sgr::Font(Font::Default)),
        73 => Some(Sgr::VerticalAlign(VerticalAlign::SuperScript)),
        74 => Some(Sgr::VerticalAlign(VerticalAlign::SubScript)),
        75 => Some(Sgr::VerticalAlign(VerticalAlign::BaseLine)),
        39 => Some(Sgr::Foreground(ColorSpec::Default)),
        49 => Some(Sgr::Background(ColorSpec::Default)),
        59 => Some(Sgr::UnderlineColor(ColorSpec::Default)),
        11..=19 => Some(Sgr::Font(Font::Alternate(code - 10))),
        30..=37 => Some(Sgr::Foreground(ColorSpec::PaletteIndex(code - 30))),
        40..=47 => Some(Sgr::Background(ColorSpec::PaletteIndex(code - 40))),
        90..=97 => Some(Sgr::Foreground(ColorSpec::PaletteIndex(code - 82))),
        100..=107 => Some(Sgr::Background(ColorSpec::PaletteIndex(code - 92))),
        _ => None,
    }
}

/// `4:k` where `k` is the number of an underline, else `4` alone; `rest` follows the 4.
fn underline_shape<S: TokenSource>(rest: S) -> Option<(Sgr, S)>
    ensures { seen S.tokens result ≡ read_off (Integer (pos 4) ∷ S.tokens rest) (underline_shape (S.tokens rest)) }
{
    if let Some((kind, rest)) = rest.number_after(b':')
        && let Some(line) = underline_numbered(kind)
    {
        return Some((Sgr::Underline(line), rest));
    }
    Some((Sgr::Underline(Underline::Single), rest))
}

/// The setting of the longest shape at the start of tokens that begin with a number, and the tokens after it.
#[inline(always)]
#[tactic(auto, unfolding(crate::specs::Rendition::numbered_shape))]
fn numbered_shape<S: TokenSource>(value: i64, rest: S) -> Option<(Sgr, S)>
    ensures { seen S.tokens result ≡ read_off (Integer value ∷ S.tokens rest) (numbered_shape value (S.tokens rest)) }
{
    match value {
        38 | 48 | 58 => {
            let (color, rest) = color_form(rest)?;
            let setting = match value {
                38 => Sgr::Foreground(color),
                48 => Sgr::Background(color),
                _ => Sgr::UnderlineColor(color),
            };
            Some((setting, rest))
        }
        4 => underline_shape(rest),
        _ => Some((plain_code(value)?, rest)),
    }
}

/// The setting of the longest shape at the start of the tokens, and the tokens after it.
#[inline(always)]
#[tactic(auto, unfolding(crate::specs::Rendition::sgr_shape))]
fn sgr_shape<S: TokenSource>(source: S) -> Option<(Sgr, S)>
    ensures { seen S.tokens result ≡ read_off (S.tokens source) (sgr_shape (S.tokens source)) }
{
    match source.number() {
        Some((value, rest)) => numbered_shape(value, rest),
        None => Some((Sgr::Reset, source.past(b';')?)),
    }
}

/// The tokens after a `;`, where one comes first, and else all of them.
#[inline(always)]
fn past_semicolon<S: TokenSource>(rest: S) -> S
    ensures { S.tokens result ≡ past_semicolon (S.tokens rest) }
{
    rest.past(b';').unwrap_or(rest)
}

/// The setting of the group at the start of the tokens, and the tokens after it and the `;` right after it.
#[inline(always)]
#[tactic(auto, using(crate::proofs::GroupLemmas::group_read))]
pub(crate) fn read_group<S: TokenSource>(source: S) -> Option<(Sgr, S)>
    ensures { seen S.tokens result ≡ read_off (S.tokens source) (sgr_group (S.tokens source)) }
{
    let (value, rest) = sgr_shape(source)?;
    Some((value, past_semicolon(rest)))
}
