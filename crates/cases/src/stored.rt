//! What a line keeps, as rows write it.
use crate::attributes;
use crate::sheet::Sheet;
use cell_line::{Line, StoredLine};

/// Writes `cells`, or `clustered` with the text in quotes, the sizes of cells as `BYTES:COLUMNS`, the count and the
/// attributes of each run, and `blanks` with the count and the attributes of the blanks after the text, if any.
pub fn say(line: &Line, sheet: &mut Sheet) {
    let StoredLine::Clustered(row) = line.stored() else {
        sheet.word("cells");
        return;
    };
    sheet.word("clustered");
    sheet.quoted(row.text);
    for size in row.sizes {
        sheet.show(&size.len);
        sheet.add(b":");
        sheet.add_shown(&size.columns());
    }
    for run in row.runs {
        sheet.show(&run.count);
        attributes::say(&run.attributes, sheet);
    }
    if row.blanks > 0 {
        sheet.word("blanks");
        sheet.show(&row.blanks);
        attributes::say(row.rest, sheet);
    }
}
