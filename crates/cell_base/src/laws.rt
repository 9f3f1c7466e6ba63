//! Laws of the definitions: each is the contract of a function that does nothing.
ghost use Rattle.std.specs.Prelude.{◌≡◌, true, Ok, IfOk};
ghost use Rattle.unicode_segmentation.specs.Grapheme.{graphemes};
ghost use Rattle.cell_base.specs.Cluster.{clusters};
ghost use Rattle.cell_base.specs.LawfulCell.{IsCell};
ghost use Rattle.cell_base.specs.LinkText.{link_reading, fields, text_of_link};

use crate::cell::Cell;

/// A cell takes one or two columns, and its text is not one of those that a cell replaces by a space.
pub fn cells_are_lawful(cell: &Cell)
    ensures { IsCell cell.now }
{
    let _columns = cell.width();
}

/// Each cluster of a text is by itself one cluster, so it is read unchanged.
pub fn clusters_as_they_are(text: &str)
    ensures { clusters text.now ≡ graphemes true text.now }
{
    let _text = text;
}

/// The link, or none, read from the parts of an OSC 8 reads back equal from its text: from the text's
/// parts between `;`.
pub fn link_reads_back(body: &[u8])
    ensures { IfOk (link_reading (fields 59 body.now))
        (λ link. link_reading (fields 59 (text_of_link link)) ≡ Ok link) }
{
    let _body = body;
}
