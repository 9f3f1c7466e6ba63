//! Steps on the cells of a line, which are read from the left: the cell stored after a wide one
//! is ignored.
ghost use Rattle.std.specs.Prelude.{◌≡◌, ℕ, ◌+◌, ◌-◌, ◌≤◌, ◌<◌, ◌++◌, ◌&&◌, true, false, length, take, drop, [], ◌∷◌};
ghost use Rattle.std.specs.Prelude.{slice_set, replicate, map, vec_len, nat_lt, if◌then◌else◌, OnOk, OnErr, IfOk};
ghost use Rattle.cell_base.specs.CellContent.{row_of_cells, blank_cell};
ghost use Rattle.cell_base.specs.Attributes.{plain};
ghost use Rattle.cell_base.specs.Row.{set_columns, space};
ghost use Rattle.cell_edits.specs.CellList.{ends_split, last_read, blank_for, cell_columns};
ghost use Rattle.cell_edits.specs.VisibleCells.{mark_cell, row_end_wrapped};
ghost use Rattle.cell_edits.specs.Links.{is_implicit, cell_without_implicit};
ghost use Rattle.std.specs.Str.{bytes_eq};
ghost use Rattle.cell_base.specs.SameAttributes.{same_attributes};
ghost use Rattle.cell_edits.specs.ShownCells.{lent_cells};
ghost use Rattle.cell_edits.specs.RowEdits.{cut, cut_prefix, padded, resized, with_cell, removed, inserted};
ghost use Rattle.cell_edits.specs.RowEdits.{with_inserted, erased, erased_within, filled, pruned_row};

use cell_base::{Cell, CellAttributes};
use std::alloc::{AllocError, Global};
use std::mem;

/// How many columns the cell takes.
pub fn column_count(cell: &Cell) -> usize
    ensures { result ≡ length (cell_columns cell.now) }
{
    if cell.width() >= 2 { 2 } else { 1 }
}

/// Whether the cell that is read last before `at` is a wide one whose second column is at `at`: of a run of wide cells
/// every second one is read.
pub fn is_split(cells: &[Cell], at: usize) -> bool
    requires { at ≤ length cells.now }
    ensures { result ≡ ends_split (take at cells.now) }
{
    let mut was_split = false;
    let mut position = at;
    while position > 0 && cells[position - 1].width() >= 2 {
        was_split = !was_split;
        position -= 1;
    }
    was_split
}

/// The index of the cell that is read last. Of the cells it reads only the wide ones right before the end.
pub fn last_read(cells: &[Cell]) -> usize
    requires { 0 < length cells.now }
    ensures within { result < length cells.now }
    ensures at { result ≡ last_read cells.now }
{
    let last = cells.len() - 1;
    if is_split(cells, last) {
        last - 1
    } else {
        last
    }
}

// Replaces the cell at `at`.
pub(crate) fn put(cells: &mut Vec<Cell>, at: usize, cell: Cell)
    requires { at < vec_len cells.old }
    ensures { cells.new.items ≡ slice_set cells.old.items at cell }
{
    cells[at] = cell;
}

// The cell and the one after it become blanks with its attributes.
#[cold]
#[inline(never)]
fn split_cell(cells: &mut Vec<Cell>, at: usize) -> Result<(), AllocError>
    requires { at < vec_len cells.old }
    ensures len { vec_len cells.new ≡ vec_len cells.old }
    ensures before { OnOk result
        (take (at + 1) cells.new.items ≡ take at cells.old.items ++ blank_for cells.old.items at ∷ []) }
    ensures after { OnOk result
        (at + 1 < vec_len cells.old
        → drop (at + 1) cells.new.items ≡ blank_for cells.old.items at ∷ drop (at + 2) cells.old.items) }
{
    let left = Cell::blank_with_attrs(cells[at].attrs().try_clone()?);
    if at + 1 < cells.len() {
        let right = Cell::blank_with_attrs(cells[at].attrs().try_clone()?);
        put(cells, at + 1, right);
    }
    put(cells, at, left);
    Ok(())
}

// A wide cell whose second column is `at` becomes two blanks.
#[inline(always)]
fn cut_at(cells: &mut Vec<Cell>, at: usize) -> Result<(), AllocError>
    requires { at ≤ vec_len cells.old }
    ensures len { vec_len cells.new ≡ vec_len cells.old }
    ensures whole { OnOk result (ends_split (take at cells.new.items) ≡ false) }
    ensures before { OnOk result (row_of_cells (take at cells.new.items) ≡ cut at (row_of_cells cells.old.items)) }
    ensures after { OnOk result
        (row_of_cells (drop at cells.new.items) ≡ cut_prefix at (row_of_cells cells.old.items)) }
    ensures earlier { OnOk result (take (at - 1) cells.new.items ≡ take (at - 1) cells.old.items) }
{
    if at > 0 && is_split(cells, at) {
        split_cell(cells, at - 1)?;
    }
    Ok(())
}

// Wide cells whose second column is `start`, or `end`, become blanks.
#[inline(always)]
pub(crate) fn open(cells: &mut Vec<Cell>, start: usize, end: usize) -> Result<(), AllocError>
    requires order { start ≤ end }
    requires within { end ≤ vec_len cells.old }
    ensures len { vec_len cells.new ≡ vec_len cells.old }
    ensures whole { OnOk result (ends_split (take start cells.new.items) ≡ false) }
    ensures before { OnOk result
        (row_of_cells (take start cells.new.items) ≡ cut start (row_of_cells cells.old.items)) }
    ensures after { OnOk result
        (row_of_cells (drop end cells.new.items) ≡ cut_prefix end (row_of_cells cells.old.items)) }
{
    cut_at(cells, start)?;
    if start < end {
        cut_at(cells, end)?;
    }
    Ok(())
}

// Sets the columns from `at` on to those of the cell.
pub(crate) fn write_cell(cells: &mut Vec<Cell>, at: usize, cell: Cell) -> Result<(), AllocError>
    requires { at + length (cell_columns cell) ≤ vec_len cells.old }
    ensures len { vec_len cells.new ≡ vec_len cells.old }
    ensures row { OnOk result
        (row_of_cells cells.new.items ≡ set_columns (row_of_cells cells.old.items) at (cell_columns cell)) }
{
    let count = column_count(&cell);
    open(cells, at, at + count)?;
    if count == 2 {
        put(cells, at + 1, Cell::blank());
    }
    put(cells, at, cell);
    Ok(())
}

// Inserts the cell's columns between the columns before `at` and the columns from `at` on.
pub(crate) fn insert_columns(cells: &mut Vec<Cell>, at: usize, cell: Cell) -> Result<(), AllocError>
    requires { at ≤ vec_len cells.old }
    ensures { OnOk result
        (row_of_cells cells.new.items ≡ inserted at (cell_columns cell) (row_of_cells cells.old.items)) }
{
    open(cells, at, at)?;
    if column_count(&cell) == 2 {
        cells.insert(at, Cell::blank())?;
    }
    cells.insert(at, cell)?;
    Ok(())
}

/// Drops the column at `at`.
pub fn remove_column(cells: &mut Vec<Cell>, at: usize) -> Result<(), AllocError>
    requires { at < vec_len cells.old }
    ensures len { OnOk result (vec_len cells.new + 1 ≡ vec_len cells.old) }
    ensures row { OnOk result (row_of_cells cells.new.items ≡ removed at (row_of_cells cells.old.items)) }
{
    open(cells, at, at + 1)?;
    let _removed = cells.remove(at);
    Ok(())
}

// Drops the columns from `width` on.
fn cut_to(cells: &mut Vec<Cell>, width: usize) -> Result<(), AllocError>
    requires { width ≤ vec_len cells.old }
    ensures { OnOk result (row_of_cells cells.new.items ≡ cut width (row_of_cells cells.old.items)) }
{
    cut_at(cells, width)?;
    cells.truncate(width);
    Ok(())
}

/// Appends `count` plain blanks.
pub fn push_blanks(cells: &mut Vec<Cell>, count: usize) -> Result<(), AllocError>
    ensures { OnOk result (cells.new.items ≡ cells.old.items ++ replicate count (blank_cell plain)) }
{
    cells.reserve(count)?;
    for _ in 0..count {
        cells.push(Cell::blank())?;
    }
    Ok(())
}

// Appends plain blanks up to `width` columns.
pub(crate) fn pad(cells: &mut Vec<Cell>, width: usize) -> Result<(), AllocError>
    ensures row { OnOk result (row_of_cells cells.new.items ≡ padded width (row_of_cells cells.old.items)) }
    ensures len { OnOk result (width ≤ vec_len cells.new) }
{
    let len = cells.len();
    if len < width {
        cut_at(cells, len)?;
        push_blanks(cells, width - len)?;
    }
    Ok(())
}

/// Cuts the row to `width` columns, or pads it to them with plain blanks.
pub fn resize(cells: &mut Vec<Cell>, width: usize) -> Result<(), AllocError>
    ensures { OnOk result (row_of_cells cells.new.items ≡ resized width (row_of_cells cells.old.items)) }
{
    if width < cells.len() {
        cut_to(cells, width)
    } else {
        pad(cells, width)
    }
}

/// Sets the cell at `at`; a row that ends before the cell's end is padded first.
pub fn set_cell(cells: &mut Vec<Cell>, at: usize, cell: Cell) -> Result<(), AllocError>
    ensures { OnOk result (row_of_cells cells.new.items ≡ with_cell (row_of_cells cells.old.items) at cell) }
{
    let end = at.checked_add(column_count(&cell)).ok_or(AllocError)?;
    pad(cells, end)?;
    write_cell(cells, at, cell)
}

/// Appends `count` copies of the cell.
pub fn push_copies(cells: &mut Vec<Cell>, count: usize, cell: &Cell) -> Result<(), AllocError>
    ensures { OnOk result (cells.new.items ≡ cells.old.items ++ replicate count cell.now) }
{
    cells.reserve(count)?;
    for _ in 0..count {
        cells.push(cell.try_clone()?)?;
    }
    Ok(())
}

// Appends `count` blanks with attributes.
pub(crate) fn push_blanks_with(
    cells: &mut Vec<Cell>,
    count: usize,
    attrs: &CellAttributes,
) -> Result<(), AllocError>
    ensures { OnOk result (cells.new.items ≡ cells.old.items ++ replicate count (blank_cell attrs.now)) }
{
    let blank = Cell::blank_with_attrs(attrs.try_clone()?);
    push_copies(cells, count, &blank)?;
    Ok(())
}

/// Cuts the row at `at`, and returns the cells from there on.
pub fn split_off(cells: &mut Vec<Cell>, at: usize) -> Result<Vec<Cell>, AllocError>
    requires { at ≤ vec_len cells.old }
    ensures kept { OnOk result (row_of_cells cells.new.items ≡ cut at (row_of_cells cells.old.items)) }
    ensures rest { IfOk result (λ rest. row_of_cells rest.items ≡ cut_prefix at (row_of_cells cells.old.items)) }
{
    cut_at(cells, at)?;
    cells.split_off(at)
}

/// Appends the other row to this one.
pub fn append(cells: &mut Vec<Cell>, mut other: Vec<Cell>) -> Result<(), AllocError>
    ensures { OnOk result (row_of_cells cells.new.items ≡ row_of_cells cells.old.items ++ row_of_cells other.items) }
{
    let len = cells.len();
    cut_at(cells, len)?;
    cells.append(&mut other)?;
    Ok(())
}

/// Drops the last column before the margin, if the row reaches that far, and inserts the cell at `x`; pads a row that
/// ends before `x`.
pub fn insert_cell(
    cells: &mut Vec<Cell>,
    x: usize,
    cell: Cell,
    right_margin: usize,
) -> Result<(), AllocError>
    requires { 1 ≤ right_margin }
    ensures { OnOk result
        (row_of_cells cells.new.items ≡ with_inserted (row_of_cells cells.old.items) x cell right_margin) }
{
    if right_margin <= cells.len() {
        remove_column(cells, right_margin - 1)?;
    }
    pad(cells, x)?;
    insert_columns(cells, x, cell)?;
    Ok(())
}

/// Drops the column at `at`, and adds a plain blank.
pub fn erase_column(cells: &mut Vec<Cell>, at: usize) -> Result<(), AllocError>
    requires { at < vec_len cells.old }
    ensures { OnOk result (row_of_cells cells.new.items ≡ erased at (row_of_cells cells.old.items)) }
{
    remove_column(cells, at)?;
    let len = cells.len();
    cut_at(cells, len)?;
    cells.push(Cell::blank())?;
    Ok(())
}

/// Drops the column at `x` if it is there, and inserts a blank at the margin if the row reaches to
/// it.
pub fn erase_within(
    cells: &mut Vec<Cell>,
    x: usize,
    right_margin: usize,
    blank_attr: CellAttributes,
) -> Result<(), AllocError>
    requires { 1 ≤ right_margin }
    ensures { OnOk result
        (row_of_cells cells.new.items ≡ erased_within (row_of_cells cells.old.items) x right_margin blank_attr) }
{
    if x < cells.len() {
        remove_column(cells, x)?;
    }
    if right_margin - 1 <= cells.len() {
        insert_columns(cells, right_margin - 1, Cell::blank_with_attrs(blank_attr))?;
    }
    Ok(())
}

/// Appends the cell's columns to the row.
pub fn push_cell(cells: &mut Vec<Cell>, cell: Cell) -> Result<(), AllocError>
    requires { ends_split cells.old.items ≡ false }
    ensures whole { OnOk result (ends_split cells.new.items ≡ false) }
    ensures row { OnOk result (row_of_cells cells.new.items ≡ row_of_cells cells.old.items ++ cell_columns cell) }
{
    let is_wide = cell.width() >= 2;
    cells.push(cell)?;
    if is_wide {
        cells.push(Cell::blank())?;
    }
    Ok(())
}

/// Sets the cell at each column from `start` on and before `end`, in turn. Room for all of them is
/// reserved first, so a range that memory can't hold is refused at once.
pub fn fill(cells: &mut Vec<Cell>, start: usize, end: usize, cell: &Cell) -> Result<(), AllocError>
    ensures { OnOk result
        (row_of_cells cells.new.items ≡ filled (row_of_cells cells.old.items) start (end - start) cell.now) }
{
    let count = if start < end {
        end.saturating_sub(cells.len())
    } else {
        0
    };
    cells.reserve(count)?;
    for at in start..end {
        set_cell(cells, at, cell.try_clone()?)?;
    }
    Ok(())
}

// The cell stored after a wide one becomes the blank that is shown there, and a wide cell with none
// after it the blank that it is read as.
fn settle_cell(cells: &mut Vec<Cell>, at: usize) -> Result<(), AllocError>
    requires { at < vec_len cells.old }
    ensures done { OnOk result
        (cells.new.items
        ≡ slice_set cells.old.items (if nat_lt (at + 1) (vec_len cells.old) then at + 1 else at)
        (blank_for cells.old.items at)) }
    ensures refused { OnErr result (cells.new.items ≡ cells.old.items) }
{
    let blank = Cell::blank_with_attrs(cells[at].attrs().try_clone()?);
    if at + 1 < cells.len() {
        put(cells, at + 1, blank);
    } else {
        put(cells, at, blank);
    }
    Ok(())
}

/// Each cell becomes the one that is shown in its column.
pub fn settle(cells: &mut Vec<Cell>) -> Result<(), AllocError>
    ensures done { OnOk result (cells.new.items ≡ lent_cells (row_of_cells cells.old.items)) }
    ensures row { row_of_cells cells.new.items ≡ row_of_cells cells.old.items }
{
    let mut at = 0;
    while at < cells.len() {
        if cells[at].width() >= 2 {
            settle_cell(cells, at)?;
            at += 1;
        }
        at += 1;
    }
    Ok(())
}

/// A copy of the cells.
pub fn copy(alloc: Global, cells: &[Cell]) -> Result<Vec<Cell>, AllocError>
    ensures { IfOk result (λ copy. copy.items ≡ cells.now) }
{
    let mut copy = Vec::with_capacity(alloc, cells.len())?;
    for cell in cells {
        copy.push(cell.try_clone()?)?;
    }
    Ok(copy)
}

// Whether the text is one space and the attributes are plain.
fn is_plain_blank(cell: &Cell) -> bool
    ensures { result ≡ (bytes_eq cell.now.text space && same_attributes cell.now.attributes plain) }
{
    cell.str() == " " && *cell.attrs() == CellAttributes::blank()
}

// How many columns there are without the plain blanks at the end.
fn pruned_width(cells: &[Cell]) -> usize
    requires { ends_split cells.now ≡ false }
    ensures within { result ≤ length cells.now }
    ensures row { row_of_cells (take result cells.now) ≡ pruned_row (row_of_cells cells.now) }
{
    let mut width = cells.len();
    while width > 0 && !is_split(cells, width - 1) && is_plain_blank(&cells[width - 1]) {
        width -= 1;
    }
    width
}

/// Drops the plain blanks at the end, unless no cell would be left; returns whether one is. With `false`, the row is
/// unchanged.
pub fn prune(cells: &mut Vec<Cell>) -> Result<bool, AllocError>
    ensures none { IfOk result
        (λ some. some ≡ false
        → (pruned_row (row_of_cells cells.old.items) ≡ [])
        × (row_of_cells cells.new.items ≡ row_of_cells cells.old.items)) }
    ensures some { IfOk result
        (λ some. some ≡ true
        → (0 < length (pruned_row (row_of_cells cells.old.items)))
        × (row_of_cells cells.new.items ≡ pruned_row (row_of_cells cells.old.items))) }
{
    let len = cells.len();
    cut_at(cells, len)?;
    let width = pruned_width(cells);
    if width == 0 {
        return Ok(false);
    }
    cells.truncate(width);
    Ok(true)
}

// Sets whether the line goes on after the cell.
fn mark(cell: &mut Cell, wrapped: bool)
    ensures { cell.new ≡ mark_cell wrapped cell.old }
{
    let mut attrs = mem::take(cell.attrs_mut());
    attrs.set_wrapped(wrapped);
    *cell.attrs_mut() = attrs;
}

/// Sets whether the line goes on after the last cell.
pub fn set_end_wrapped(cells: &mut Vec<Cell>, wrapped: bool)
    ensures { row_of_cells cells.new.items ≡ row_end_wrapped wrapped (row_of_cells cells.old.items) }
{
    if cells.is_empty() {
        return;
    }
    let at = last_read(cells);
    mark(&mut cells[at], wrapped);
}

/// Whether the attributes have a link that was found in a text.
pub fn has_implicit(attrs: &CellAttributes) -> bool
    ensures { result ≡ is_implicit attrs.now.hyperlink }
{
    match attrs.hyperlink() {
        None => false,
        Some(link) => link.is_implicit(),
    }
}

// Drops a link that was found in a text.
fn drop_implicit(cell: &mut Cell)
    ensures { cell.new ≡ cell_without_implicit cell.old }
{
    if has_implicit(cell.attrs()) {
        let mut attrs = mem::take(cell.attrs_mut());
        attrs.set_hyperlink(None);
        *cell.attrs_mut() = attrs;
    }
}

/// Drops links that were found in a text from every cell.
pub fn drop_implicit_links(cells: &mut [Cell])
    ensures { cells.new ≡ map cell_without_implicit cells.old }
{
    for cell in cells.iter_mut() {
        drop_implicit(cell);
    }
}

/// A wide cell with none after it becomes the blank that it is read as.
pub fn close_end(cells: &mut Vec<Cell>) -> Result<(), AllocError>
    ensures whole { OnOk result (ends_split cells.new.items ≡ false) }
    ensures row { OnOk result (row_of_cells cells.new.items ≡ row_of_cells cells.old.items) }
{
    let len = cells.len();
    cut_at(cells, len)?;
    Ok(())
}
