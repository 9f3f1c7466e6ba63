//! A row, told to C: its cells, and beside them their texts and links.
ghost use Rattle.std.specs.Prelude.{◌≡◌, [], ◌++◌, IfOk, MatchOption, OnOk};
ghost use Rattle.std.specs.Option.{option_map};
ghost use Rattle.cell_base.specs.RenditionBytes.{align_byte, blink_byte, intensity_byte, semantic_byte, underline_byte};
ghost use Rattle.cell_edits.specs.VisibleCells.{texts_joined, visible_cells};
ghost use Rattle.cell_views.specs.CellRefView.{cells_left, shown_by};
ghost use Rattle.screen_difference.specs.ShownCells.{HaveRoom};
ghost use Rattle.terminal_c.specs.Told.{color_told, goes_on, nothing_told, style_told, told, uri_in};
ghost use Rattle.terminal_c.specs.Told.{with_cell, with_face, with_text};
ghost use Rattle.terminal_c.specs.ToldCells.{TellsNext};
ghost use Rattle.terminal_c.specs.ToldView.{IsTold};

use cell_base::{
    Blink, CellAttributes, ColorAttribute, Intensity, SemanticType, Underline, VerticalAlign,
};
use cell_line::{CellRef, Line, VisibleCellIter};
use std::alloc::{AllocError, Global};
use std::marker::Model;

/// A color of a cell.
#[repr(C)]
#[derive(Clone, Copy)]
pub struct Color {
    /// 0 the default color, 1 one of the palette, 2 a true color, 3 a true color or one of the palette.
    pub kind: u8,
    /// The number in the palette of 256, for the kinds 1 and 3.
    pub index: u8,
    /// Red, for the kinds 2 and 3.
    pub red: u8,
    /// Green, for the kinds 2 and 3.
    pub green: u8,
    /// Blue, for the kinds 2 and 3.
    pub blue: u8,
    /// Alpha, for the kinds 2 and 3.
    pub alpha: u8,
}

/// The attributes of a cell, without its link.
#[repr(C)]
#[derive(Clone, Copy)]
pub struct Style {
    /// 0 normal, 1 bold, 2 half.
    pub intensity: u8,
    /// 0 none, 1 single, 2 double, 3 curly, 4 dotted, 5 dashed.
    pub underline: u8,
    /// 0 none, 1 slow, 2 rapid.
    pub blink: u8,
    /// 0 on the base line, 1 raised, 2 lowered.
    pub vertical_align: u8,
    /// 0 output, 1 input, 2 a prompt.
    pub semantic_type: u8,
    /// Whether the text is italic.
    pub is_italic: bool,
    /// Whether foreground and background are swapped.
    pub is_reverse: bool,
    /// Whether the text is struck through.
    pub is_strikethrough: bool,
    /// Whether the text is hidden.
    pub is_invisible: bool,
    /// Whether the line goes on in the next row after the cell.
    pub is_wrapped: bool,
    /// Whether the text has a line above it.
    pub is_overline: bool,
    /// The color of the text.
    pub foreground: Color,
    /// The color behind the text.
    pub background: Color,
    /// The color of the underline.
    pub underline_color: Color,
}

/// What neighboring cells of the same attributes share.
#[repr(C)]
#[derive(Clone, Copy)]
pub struct Face {
    /// Where the URI of the link begins in the row's links.
    pub link_at: usize,
    /// How many bytes the URI has; 0 where there is no link.
    pub link_len: usize,
    /// The other attributes.
    pub style: Style,
}

/// A cell.
#[repr(C)]
#[derive(Clone, Copy)]
pub struct Cell {
    /// The first column, counted from 0.
    pub column: usize,
    /// How many columns the cell takes: 1 or 2.
    pub width: usize,
    /// Where the text begins in the row's text.
    pub text_at: usize,
    /// How many bytes the text has.
    pub text_len: usize,
    /// The attributes.
    pub face: Face,
}

/// A row that was told: its cells, their texts joined, and the URIs of its links.
#[derive(Drop)]
pub struct Row {
    pub(crate) cells: Vec<Cell>,
    pub(crate) text: Vec<u8>,
    pub(crate) links: Vec<u8>,
}

impl Row {
    /// A row of no cells.
    pub(crate) fn new(alloc: Global) -> Row
        ensures cells { result.cells.items ≡ [] }
        ensures text { result.text.items ≡ [] }
        ensures links { result.links.items ≡ [] }
    {
        Row {
            cells: Vec::new(alloc),
            text: Vec::new(alloc),
            links: Vec::new(alloc),
        }
    }
}

// A row that is being told.
#[derive(Drop)]
pub(crate) struct Telling<'a> {
    pub(crate) row: Row,
    // Whether the next cells may be plain: the last cell's text has one byte, or there is no cell yet.
    pub(crate) tries_plain: bool,
    // The attributes of the last cell, and what the cells that have them share.
    last: Option<&'a CellAttributes>,
    pub(crate) face: Face,
}

impl<'a> Model for Telling<'a> {
    ghost use Rattle.terminal_c.specs.Told.{Told as Value_of};

    ghost Value = { Value_of };

    ghost use Rattle.terminal_c.specs.ToldView.{told_of};

    ghost view = { told_of };
}

fn intensity_number(intensity: Intensity) -> u8
    ensures { result ≡ intensity_byte intensity }
{
    intensity as u8
}

fn underline_number(underline: Underline) -> u8
    ensures { result ≡ underline_byte underline }
{
    underline as u8
}

fn blink_number(blink: Blink) -> u8
    ensures { result ≡ blink_byte blink }
{
    blink as u8
}

fn align_number(align: VerticalAlign) -> u8
    ensures { result ≡ align_byte align }
{
    align as u8
}

fn semantic_number(semantic_type: SemanticType) -> u8
    ensures { result ≡ semantic_byte semantic_type }
{
    semantic_type as u8
}

fn color_told(color: ColorAttribute) -> Color
    ensures { result ≡ color_told color }
{
    let (kind, index, red, green, blue, alpha) = match color {
        ColorAttribute::Default => (0, 0, 0, 0, 0, 0),
        ColorAttribute::PaletteIndex(index) => (1, index, 0, 0, 0, 0),
        ColorAttribute::TrueColorWithDefaultFallback(c) => (2, 0, c.0, c.1, c.2, c.3),
        ColorAttribute::TrueColorWithPaletteFallback(c, index) => (3, index, c.0, c.1, c.2, c.3),
    };
    Color {
        kind,
        index,
        red,
        green,
        blue,
        alpha,
    }
}

fn style_told(attrs: &CellAttributes) -> Style
    ensures { result ≡ style_told attrs.now }
{
    Style {
        intensity: intensity_number(attrs.intensity()),
        underline: underline_number(attrs.underline()),
        blink: blink_number(attrs.blink()),
        vertical_align: align_number(attrs.vertical_align()),
        semantic_type: semantic_number(attrs.semantic_type()),
        is_italic: attrs.italic(),
        is_reverse: attrs.reverse(),
        is_strikethrough: attrs.strikethrough(),
        is_invisible: attrs.invisible(),
        is_wrapped: attrs.wrapped(),
        is_overline: attrs.overline(),
        foreground: color_told(attrs.foreground()),
        background: color_told(attrs.background()),
        underline_color: color_told(attrs.underline_color()),
    }
}

// The URI of a cell's link; empty where it has none.
fn uri_of(attrs: &CellAttributes) -> &[u8]
    ensures { result.now ≡ uri_in attrs.now.hyperlink }
{
    match attrs.hyperlink() {
        Some(link) => link.uri().as_bytes(),
        None => b"",
    }
}

// Adds the URI of a link. Without a link there is nothing to add.
fn push_uri(links: &mut Vec<u8>, uri: &[u8]) -> Result<(), AllocError>
    ensures { OnOk result (links.new.items ≡ links.old.items ++ uri.now) }
{
    if uri.is_empty() {
        return Ok(());
    }
    links.extend_from_slice(uri)
}

// Whether the last cell has these attributes.
fn goes_on(last: Option<&CellAttributes>, attrs: &CellAttributes) -> bool
    ensures { result ≡ goes_on (option_map (λ a. a.now) last.entry) attrs.now }
{
    match last {
        Some(last) => *last == *attrs,
        None => false,
    }
}

impl<'a> Telling<'a> {
    // Nothing told yet, in the memory of a row that nobody reads any more, with room for cells in this many columns.
    fn with_room(mut row: Row, columns: usize) -> Result<Telling<'a>, AllocError>
        ensures { IfOk result (λ telling. telling ≡ nothing_told) }
    {
        row.cells.clear();
        row.text.clear();
        row.links.clear();
        row.cells.reserve(columns)?;
        row.text.reserve(columns)?;
        Ok(Telling {
            row,
            tries_plain: true,
            last: None,
            face: Face {
                link_at: 0,
                link_len: 0,
                style: style_told(&CellAttributes::blank()),
            },
        })
    }

    // Adds what cells of these attributes share, unless the last cell has them too.
    pub(crate) fn push_face(&mut self, attrs: &'a CellAttributes) -> Result<(), AllocError>
        ensures { OnOk result (self.new ≡ with_face self.old attrs.now) }
    {
        if goes_on(self.last, attrs) {
            return Ok(());
        }
        let uri = uri_of(attrs);
        let link_at = self.row.links.len();
        push_uri(&mut self.row.links, uri)?;
        self.face = Face {
            link_at,
            link_len: uri.len(),
            style: style_told(attrs),
        };
        self.last = Some(attrs);
        Ok(())
    }

    // Adds a cell at a column, with the face of the last one.
    fn push_text(&mut self, column: usize, cell: &CellRef<'a>) -> Result<(), AllocError>
        ensures { OnOk result (self.new ≡ with_text self.old (record (shown_by cell.now) { column = column })) }
    {
        let text = cell.str().as_bytes();
        let text_at = self.row.text.len();
        self.tries_plain = text.len() == 1;
        self.row.text.extend_from_slice(text)?;
        self.row.cells.push(Cell {
            column,
            width: cell.width(),
            text_at,
            text_len: text.len(),
            face: self.face,
        })?;
        Ok(())
    }

    // Adds a cell at a column.
    fn push(&mut self, column: usize, cell: &CellRef<'a>) -> Result<(), AllocError>
        ensures { OnOk result (self.new ≡ with_cell self.old (record (shown_by cell.now) { column = column })) }
    {
        self.push_face(cell.attrs())?;
        self.push_text(column, cell)?;
        Ok(())
    }

    // Adds the next cells, the first at a column: as many as can be told as one text (`push_plain`), or else one.
    // Returns how many columns they take. `None`: none is left.
    #[tactic(auto, using(crate::proofs::ToldLemmas::cell_told))]
    fn push_next(
        &mut self,
        column: usize,
        cells: &mut VisibleCellIter<'a>,
    ) -> Result<Option<usize>, AllocError>
        requires { HaveRoom column (cells_left cells.old) }
        ensures { IfOk result (λ next. MatchOption next
            ((self.new ≡ self.old) × (cells_left cells.old ≡ []))
            (λ count. TellsNext column count self.old self.new (cells_left cells.old) (cells_left cells.new))) }
    {
        if let Some(count) = self.push_plain(column, cells)? {
            return Ok(Some(count));
        }
        let Some(cell) = cells.next() else {
            return Ok(None);
        };
        self.push(column, &cell)?;
        Ok(Some(cell.width()))
    }

    // The row as it was told.
    fn into_row(self) -> Row
        ensures cells { result.cells.items ≡ self.entry.cells }
        ensures text { result.text.items ≡ self.entry.text }
        ensures links { result.links.items ≡ self.entry.links }
    {
        self.row
    }
}

// Tells all cells of a line, in the memory of a row.
#[tactic(auto, using(crate::proofs::ToldLemmas::line_ended))]
fn telling_of(row: Row, line: &Line) -> Result<Telling<'_>, AllocError>
    ensures { IfOk result (λ telling. telling ≡ told (visible_cells line.now.columns)) }
{
    let mut telling = Telling::with_room(row, line.len())?;
    let mut cells = line.visible_cells();
    let mut column = 0;
    while let Some(count) = telling.push_next(column, &mut cells)? {
        column += count;
    }
    Ok(telling)
}

/// A line, told to C, in the memory of a row that nobody reads any more.
#[tactic(auto, using(crate::proofs::ToldLemmas::texts_told))]
pub(crate) fn row_of(row: Row, line: &Line) -> Result<Row, AllocError>
    ensures told { IfOk result (λ row. IsTold (visible_cells line.now.columns) row) }
    ensures texts { IfOk result (λ row. row.text.items ≡ texts_joined (visible_cells line.now.columns)) }
{
    Ok(telling_of(row, line)?.into_row())
}
