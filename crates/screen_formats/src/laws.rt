//! Laws of the formats: each is the contract of a function that does nothing.
ghost use Rattle.std.specs.Prelude.{◌≡◌, List, Some, map};
ghost use Rattle.std.specs.List.{AllByRecursion, flat_map};
ghost use Rattle.cell_edits.specs.VisibleCells.{VisibleCell, texts_joined};
ghost use Rattle.cell_views.specs.Groups.{AreGroupsOf, groups_by};
ghost use Rattle.screen_formats.specs.Runs.{RendersAs, begins_run, run_of, runs_of};
ghost use Rattle.cell_base.specs.Screen.{Screen};
ghost use Rattle.screen_formats.specs.Content.{AreTagged, content, html_content, tokens_content, svg_content};
ghost use Rattle.screen_formats.specs.Escape.{escaped, held_text, unescaped};
ghost use Rattle.screen_formats.specs.Html.{html_text};
ghost use Rattle.screen_formats.specs.Tokens.{Token, tokens_text};
ghost use Rattle.screen_formats.specs.Svg.{svg_text};

use crate::escape::Markup;

/// An escaped text reads back as the text with U+FFFD in place of each character that the markup can't hold. So no tag
/// begins or ends in it, it ends no value in quotes, and each `&` in it begins one of the character references that
/// are written.
#[tactic(auto, using(crate::proofs::EscapeLemmas::escaped_back))]
pub fn escaped_texts_read_back(markup: Markup, text: &str)
    ensures { unescaped (escaped markup text.now) ≡ Some (held_text markup text.now) }
{
    let _text = text;
}

/// The text content of tokens (without the tags) is their texts, one after the other, whatever the texts and the values
/// of attributes hold.
#[tactic(auto, using(crate::proofs::ContentLemmas::content_back))]
pub fn tokens_hold_their_texts(markup: Markup)
    ensures { (tokens : List Token) → AreTagged tokens
        → content (tokens_text markup tokens) ≡ Some (tokens_content markup tokens) }
{
    let _markup = markup;
}

/// The text content of a screen as HTML (without the tags) is the texts of its visible cells, in order, with a line
/// feed after each row, and one after the screen.
#[tactic(auto, using(crate::proofs::ScreenContent::html_read))]
pub fn html_holds_the_cells()
    ensures { (screen : Screen) → content (html_text screen) ≡ Some (html_content screen) }
{}

/// The text content of a screen as SVG (without the tags) is its title and the texts of its visible cells, in order,
/// and a line feed.
#[tactic(auto, using(crate::proofs::ScreenContent::svg_read))]
pub fn svg_holds_the_cells()
    ensures { (screen : Screen) → content (svg_text screen) ≡ Some (svg_content screen) }
{}

/// The runs of cells are a cut of them, by the rule that a cell begins a run where its attributes or its width differ
/// from those of the run before it. Each has the attributes and the width of each of its cells and the column of the
/// first, and their texts, joined, are the texts of the cells.
#[tactic(auto, using(crate::proofs::RunLemmas::texts_of_runs))]
pub fn runs_hold_the_cells()
    ensures texts { (cells : List VisibleCell) → flat_map (λ run. run.text) (runs_of cells) ≡ texts_joined cells }
    ensures cut { (cells : List VisibleCell) → AreGroupsOf begins_run cells (groups_by begins_run cells) }
    ensures runs { (cells : List VisibleCell) → runs_of cells ≡ map run_of (groups_by begins_run cells) }
    ensures renditions { (cells : List VisibleCell)
        → AllByRecursion (λ group. AllByRecursion (RendersAs (run_of group)) group) (groups_by begins_run cells) }
{}
