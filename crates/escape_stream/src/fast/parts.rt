//! Operating system commands of two or three parts, which are read without a list of the parts.
ghost use Rattle.std.specs.Prelude.{◌≡◌, ◌∷◌, [], IfOk, IfSome, None};
ghost use Rattle.std.specs.List.{prefix_len};
ghost use Rattle.escape_osc.specs.CommandView.{command_of};
ghost use Rattle.escape_osc.specs.Parts.{parts_of};
ghost use Rattle.escape_osc.specs.Reading.{osc_reading};
ghost use Rattle.escape_stream.specs.Sequences.{is_in_part};

use escape_osc::OperatingSystemCommand;
use std::alloc::{AllocError, Global};

// How many bytes precede the first `;` of a body.
fn first_len(body: &[u8]) -> usize
    ensures { result ≡ prefix_len is_in_part body.now }
{
    body.iter().take_while(|byte| **byte != b';').count()
}

// The bytes before the first `;` of a body, and those after it.
fn cut(body: &[u8]) -> Option<(&[u8], &[u8])>
    ensures some { IfSome result (λ c. parts_of body.now ≡ c.0.now ∷ parts_of c.1.now) }
    ensures none { result ≡ None → parts_of body.now ≡ body.now ∷ [] }
{
    let len = first_len(body);
    let (first, remaining) = body.split_at(len);
    let (_, rest) = remaining.split_first()?;
    Some((first, rest))
}

// The command of a body of two or three parts. `None`: take the general way.
pub(crate) fn command_of_short(
    alloc: Global,
    body: &[u8],
) -> Option<Result<OperatingSystemCommand, AllocError>>
    ensures { IfSome result (λ read. IfOk read (λ c. command_of c ≡ osc_reading (parts_of body.now))) }
{
    let (first, remaining) = cut(body)?;
    let Some((second, third)) = cut(remaining) else {
        return Some(OperatingSystemCommand::parse(alloc, &[first, remaining]));
    };
    if cut(third).is_some() {
        return None;
    }
    Some(OperatingSystemCommand::parse(alloc, &[first, second, third]))
}
