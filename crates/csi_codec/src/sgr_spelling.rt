//! SGR: writing a setting.
ghost use Rattle.std.specs.Prelude.{◌≡◌, ◌≤◌, ◌∷◌, [], length};
ghost use Rattle.csi_codec.specs.Parameters.{sequence_text, spelled};
ghost use Rattle.csi_codec.specs.declared.parameters.CsiParam.TheVariants.{P};
ghost use Rattle.csi_codec.specs.Rendition.{
  sgr_spelling,
  palette_tokens,
  colour_tokens,
  short_colour_tokens,
  underline_colour_tokens,
  underline_tokens,
  switch,
  number,
  opaque_tokens,
  alpha_tokens,
};
ghost use Rattle.csi_codec.specs.Writing.{opened_text};

use crate::rendition::{Font, Sgr};
use crate::spelling::{ControlSequence, put_number};
use crate::text::SequenceText;
use cell_base::{Blink, ColorSpec, Intensity, SrgbaTuple, Underline, VerticalAlign};

impl ControlSequence for Sgr {
    ghost spelling = { sgr_spelling };

    #[tactic(auto, unfolding(crate::specs::Rendition::sgr_spelling))]
    #[inline(never)]
    fn put_text(&self, text: &mut SequenceText) {
        match self {
            Sgr::Reset => put_number(0, b'm', text),
            Sgr::Intensity(Intensity::Bold) => put_number(1, b'm', text),
            Sgr::Intensity(Intensity::Half) => put_number(2, b'm', text),
            Sgr::Intensity(Intensity::Normal) => put_number(22, b'm', text),
            Sgr::Underline(line) => put_underline(*line, text),
            Sgr::Blink(Blink::Slow) => put_number(5, b'm', text),
            Sgr::Blink(Blink::Rapid) => put_number(6, b'm', text),
            Sgr::Blink(Blink::None) => put_number(25, b'm', text),
            Sgr::Italic(on) => put_switch(3, 23, *on, text),
            Sgr::Inverse(on) => put_switch(7, 27, *on, text),
            Sgr::Invisible(on) => put_switch(8, 28, *on, text),
            Sgr::StrikeThrough(on) => put_switch(9, 29, *on, text),
            Sgr::Overline(on) => put_switch(53, 55, *on, text),
            Sgr::Font(Font::Default) => put_number(10, b'm', text),
            Sgr::Font(Font::Alternate(n)) => put_number(10 + u32::from(*n), b'm', text),
            Sgr::VerticalAlign(VerticalAlign::SuperScript) => put_number(73, b'm', text),
            Sgr::VerticalAlign(VerticalAlign::SubScript) => put_number(74, b'm', text),
            Sgr::VerticalAlign(VerticalAlign::BaseLine) => put_number(75, b'm', text),
            Sgr::Foreground(color) => put_short_color(38, 39, 30, 82, color, text),
            Sgr::Background(color) => put_short_color(48, 49, 40, 92, color, text),
            Sgr::UnderlineColor(color) => put_underline_color(color, text),
        }
    }
}

fn put_switch(on: u32, off: u32, value: bool, text: &mut SequenceText)
    ensures { text.new ≡ sequence_text (spelled (switch on off value) 109) }
{
    put_number(if value { on } else { off }, b'm', text)
}

fn put_underline(line: Underline, text: &mut SequenceText)
    ensures { text.new ≡ sequence_text (spelled (underline_tokens line) 109) }
{
    match line {
        Underline::None => put_number(24, b'm', text),
        Underline::Single => put_number(4, b'm', text),
        Underline::Double => put_number(21, b'm', text),
        Underline::Curly => put_line(3, text),
        Underline::Dotted => put_line(4, text),
        Underline::Dashed => put_line(5, text),
    }
}

fn put_line(kind: u8, text: &mut SequenceText)
    ensures { text.new ≡ sequence_text (spelled (number 4 ∷ P 58 ∷ number kind ∷ []) 109) }
{
    let mut built = SequenceText::opened();
    built.push_small_number(4);
    built.push_sign(b':');
    built.push_small_number(kind);
    built.push_sign(b'm');
    *text = built;
}

fn put_short_color(
    target: u8,
    off: u8,
    low: u8,
    bright: u8,
    color: &ColorSpec,
    text: &mut SequenceText,
)
    ensures { text.new ≡ sequence_text (spelled (short_colour_tokens target off low bright color.now) 109) }
{
    match color {
        ColorSpec::Default => put_number(u32::from(off), b'm', text),
        ColorSpec::PaletteIndex(index) if *index < 8 => {
            put_number(u32::from(low) + u32::from(*index), b'm', text)
        }
        ColorSpec::PaletteIndex(index) if *index < 16 => {
            put_number(u32::from(bright) + u32::from(*index), b'm', text)
        }
        ColorSpec::PaletteIndex(index) => put_palette(target, *index, text),
        ColorSpec::TrueColor(color) => put_true_color(target, color, text),
    }
}

fn put_underline_color(color: &ColorSpec, text: &mut SequenceText)
    ensures { text.new ≡ sequence_text (spelled (underline_colour_tokens color.now) 109) }
{
    match color {
        ColorSpec::Default => put_number(59, b'm', text),
        ColorSpec::PaletteIndex(index) => put_palette(58, *index, text),
        ColorSpec::TrueColor(color) => put_true_color(58, color, text),
    }
}

#[inline(always)]
fn put_true_color(target: u8, color: &SrgbaTuple, text: &mut SequenceText)
    ensures { text.new ≡ sequence_text (spelled (colour_tokens target color.now) 109) }
{
    let SrgbaTuple(red, green, blue, alpha) = *color;
    if alpha == 255 {
        put_opaque(target, red, green, blue, text);
    } else {
        put_alpha(target, red, green, blue, alpha, text);
    }
}

fn put_palette(target: u8, index: u8, text: &mut SequenceText)
    ensures { text.new ≡ sequence_text (spelled (palette_tokens target index) 109) }
{
    let mut built = color_opened(target, 5);
    built.push_small_number(index);
    built.push_sign(b'm');
    *text = built;
}

fn put_opaque(target: u8, red: u8, green: u8, blue: u8, text: &mut SequenceText)
    ensures { text.new ≡ sequence_text (spelled (opaque_tokens target red green blue) 109) }
{
    let mut built = channels_opened(target, 2, red, green, blue);
    built.push_sign(b'm');
    *text = built;
}

fn put_alpha(target: u8, red: u8, green: u8, blue: u8, alpha: u8, text: &mut SequenceText)
    ensures { text.new ≡ sequence_text (spelled (alpha_tokens target red green blue alpha) 109) }
{
    let mut built = channels_opened(target, 6, red, green, blue);
    built.push_sign(b':');
    built.push_small_number(alpha);
    built.push_sign(b'm');
    *text = built;
}

/// `ESC [`, the colour's target (38, 48 or 58), `:`, the kind of the colour, `::`, and three channels with `:` between
/// them.
#[inline(always)]
fn channels_opened(target: u8, kind: u8, red: u8, green: u8, blue: u8) -> SequenceText
    ensures text { result
        ≡ opened_text
        (number target ∷ P 58 ∷ number kind ∷ P 58 ∷ P 58 ∷ number red ∷ P 58 ∷ number green ∷ P 58 ∷ number blue
        ∷ []) }
    ensures short { length result ≤ 22 }
{
    let mut text = color_opened(target, kind);
    text.push_sign(b':');
    text.push_small_number(red);
    text.push_sign(b':');
    text.push_small_number(green);
    text.push_sign(b':');
    text.push_small_number(blue);
    text
}

/// `ESC [`, the colour's target (38, 48 or 58), `:`, the kind of the colour, and `:`.
#[inline(always)]
fn color_opened(target: u8, kind: u8) -> SequenceText
    ensures text { result ≡ opened_text (number target ∷ P 58 ∷ number kind ∷ P 58 ∷ []) }
    ensures short { length result ≤ 10 }
{
    let mut text = SequenceText::opened();
    text.push_small_number(target);
    text.push_sign(b':');
    text.push_small_number(kind);
    text.push_sign(b':');
    text
}
