//! Characters that are independent: between any two of them lies a boundary of clusters.
ghost use Rattle.std.specs.Prelude.{◌≡◌, ◌↔◌, [], ◌||◌, IfSome, IsNone};
ghost use Rattle.std.specs.Int.{is_in_range};
ghost use Rattle.text_clusters.specs.Independent.{is_early, is_sign, is_eastern, is_later, is_late, is_independent};
ghost use Rattle.text_clusters.specs.Independent.{is_flag_half, begins_independent, IsFirst};

// Whether `code` lies in `first..=last`.
#[inline(always)]
fn is_in(code: u32, first: u32, last: u32) -> bool
    ensures { result ≡ is_in_range first last code }
{
    (first <= code) & (code <= last)
}

// Below U+0800.
#[inline(always)]
fn is_early(code: u32) -> bool
    ensures { result ≡ is_early code }
{
    is_in(code, 0x20, 0x7e)
        || is_in(code, 0xa0, 0xac)
        || is_in(code, 0xae, 0x2ff)
        || is_in(code, 0x370, 0x482)
        || is_in(code, 0x48a, 0x590)
}

// From U+0800 on and below U+2E00.
#[inline(always)]
fn is_sign(code: u32) -> bool
    ensures { result ≡ is_sign code }
{
    is_in(code, 0x1e00, 0x200a)
        || is_in(code, 0x2010, 0x2027)
        || is_in(code, 0x202f, 0x205f)
        || is_in(code, 0x2070, 0x20cf)
        || is_in(code, 0x20f1, 0x2cee)
}

// From U+2E00 on and below U+A670.
#[inline(always)]
fn is_eastern(code: u32) -> bool
    ensures { result ≡ is_eastern code }
{
    is_in(code, 0x2e00, 0x3029) || is_in(code, 0x3030, 0x3098) || is_in(code, 0x309b, 0xa66e)
}

// From U+A670 on and below U+10000.
#[inline(always)]
fn is_later(code: u32) -> bool
    ensures { result ≡ is_later code }
{
    is_in(code, 0xac00, 0xd7a3) || is_in(code, 0xe000, 0xfb1d) || is_in(code, 0xff00, 0xff9d)
}

// From U+10000 on.
#[inline(always)]
fn is_late(code: u32) -> bool
    ensures { result ≡ is_late code }
{
    is_in(code, 0x1f000, 0x1f1e5) || is_in(code, 0x1f200, 0x1f3fa) || is_in(code, 0x1f400, 0x3ffff)
}

/// Whether a character is independent: between two of these lies a boundary of clusters.
#[inline(always)]
#[tactic(auto, unfolding(crate::specs::Independent::is_independent))]
pub fn is_independent(character: char) -> bool
    ensures { result ≡ is_independent character }
{
    let code = character as u32;
    if code < 0x800 {
        is_early(code)
    } else if code < 0x2e00 {
        is_sign(code)
    } else if code < 0xa670 {
        is_eastern(code)
    } else if code < 0x10000 {
        is_later(code)
    } else {
        is_late(code)
    }
}

// Half of a flag: a regional indicator.
#[inline(always)]
fn is_flag_half(code: u32) -> bool
    ensures { result ≡ is_flag_half code }
{
    is_in(code, 0x1f1e6, 0x1f1ff)
}

// Whether a character joins no independent character before it.
#[inline(always)]
fn joins_none(character: char) -> bool
    ensures { result ≡ (is_independent character || is_flag_half character) }
{
    is_independent(character) || is_flag_half(character as u32)
}

/// Whether the text is empty or begins with a character that doesn't join an independent character before it: one that
/// is itself independent, or half of a flag.
#[inline(always)]
pub fn begins_independent(text: &str) -> bool
    ensures { result ≡ begins_independent text.now }
{
    match text.chars().next() {
        None => true,
        Some(character) => joins_none(character),
    }
}

/// The first character of a text, and its length in bytes.
#[inline(always)]
pub fn first_character(text: &str) -> Option<(char, usize)>
    ensures none { IsNone result ↔ (text.now ≡ []) }
    ensures begins { IfSome result (λ first. IsFirst text.now first.0 first.1) }
{
    let mut characters = text.chars();
    let first = characters.next()?;
    Some((first, text.len() - characters.as_str().len()))
}
