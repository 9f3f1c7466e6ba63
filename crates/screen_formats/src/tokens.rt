//! Tags and texts of HTML and XML.
ghost use Rattle.std.specs.Prelude.{◌≡◌, ◌++◌, [], ◌∷◌, map, OnOk};
ghost use Rattle.std.specs.String.{string_bytes};
ghost use Rattle.std.specs.List.{flat_map};
ghost use Rattle.screen_formats.specs.Tokens.{Opening, Closing, Words, attribute_text, element, tokens_text};

use crate::escape::{Markup, push_escaped};
use std::alloc::AllocError;

// Writes an attribute, unless its value is empty.
fn push_attribute(
    out: &mut String,
    markup: Markup,
    name: &str,
    value: &str,
) -> Result<(), AllocError>
    ensures { OnOk result (string_bytes out.new ≡ string_bytes out.old ++ attribute_text markup (name.now, value.now)) }
{
    if value.is_empty() {
        return Ok(());
    }
    out.push(' ')?;
    out.push_str(name)?;
    out.push_str("=\"")?;
    push_escaped(out, value, markup)?;
    out.push('"')?;
    Ok(())
}

// Writes the attributes whose values aren't empty.
fn push_attributes(
    out: &mut String,
    markup: Markup,
    attributes: &[(&str, &str)],
) -> Result<(), AllocError>
    ensures { OnOk result
        (string_bytes out.new ≡ string_bytes out.old
        ++ flat_map (attribute_text markup) (map (λ a. (a.0.now, a.1.now)) attributes.now)) }
{
    for (name, value) in attributes {
        push_attribute(out, markup, name, value)?;
    }
    Ok(())
}

/// Writes the tag that opens an element, with the attributes whose values aren't empty.
#[tactic(auto, unfolding(crate::specs::Tokens::tokens_text))]
pub fn push_opening(
    out: &mut String,
    markup: Markup,
    name: &str,
    attributes: &[(&str, &str)],
) -> Result<(), AllocError>
    ensures { OnOk result
        (string_bytes out.new ≡ string_bytes out.old
        ++ tokens_text markup (Opening name.now (map (λ a. (a.0.now, a.1.now)) attributes.now) ∷ [])) }
{
    out.push('<')?;
    out.push_str(name)?;
    push_attributes(out, markup, attributes)?;
    out.push('>')?;
    Ok(())
}

/// Writes the tag that closes an element.
#[tactic(auto, unfolding(crate::specs::Tokens::tokens_text))]
pub fn push_closing(out: &mut String, markup: Markup, name: &str) -> Result<(), AllocError>
    ensures { OnOk result (string_bytes out.new ≡ string_bytes out.old ++ tokens_text markup (Closing name.now ∷ [])) }
{
    out.push_str("</")?;
    out.push_str(name)?;
    out.push('>')?;
    Ok(())
}

/// Writes a text between tags.
#[tactic(auto, unfolding(crate::specs::Tokens::tokens_text))]
pub fn push_words(out: &mut String, markup: Markup, text: &str) -> Result<(), AllocError>
    ensures { OnOk result (string_bytes out.new ≡ string_bytes out.old ++ tokens_text markup (Words text.now ∷ [])) }
{
    push_escaped(out, text, markup)?;
    Ok(())
}

/// Writes an element that holds nothing but a text.
#[tactic(auto, unfolding(crate::specs::Tokens::tokens_text))]
pub fn push_element(
    out: &mut String,
    markup: Markup,
    name: &str,
    attributes: &[(&str, &str)],
    text: &str,
) -> Result<(), AllocError>
    ensures { OnOk result
        (string_bytes out.new ≡ string_bytes out.old
        ++ tokens_text markup (element name.now (map (λ a. (a.0.now, a.1.now)) attributes.now) text.now)) }
{
    push_opening(out, markup, name, attributes)?;
    push_words(out, markup, text)?;
    push_closing(out, markup, name)?;
    Ok(())
}
