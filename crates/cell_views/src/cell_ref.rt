//! Visible cells, borrowed from a line.
ghost use Rattle.std.specs.Prelude.{◌≡◌, ◌↔◌, false, IsTrue, IfOk};
ghost use Rattle.cell_base.specs.CellContent.{shows_as_space};
ghost use Rattle.clustered_row.specs.VisibleCells as clustered;
ghost use Rattle.cell_views.specs.CellRefView.{shown_by, copied_by, copy_of};

use cell_base::{Cell, CellAttributes};
use cell_edits::row::column_count;
use clustered_row::ClusteredCell;
use std::alloc::{AllocError, Global};

/// A visible cell of a line, with its first column, counted from 0. It borrows the cell itself, or a
/// text of one cluster with the columns that it takes (below 2 they count as 1, above it as 2) and
/// its attributes.
#[derive(Debug, Clone, Copy)]
pub enum CellRef<'a> {
    CellRef {
        cell_index: usize,
        cell: &'a Cell,
    },
    ClusterRef {
        cell_index: usize,
        text: &'a str,
        width: usize,
        attrs: &'a CellAttributes,
    },
}

impl<'a> CellRef<'a> {
    /// The first column.
    pub fn cell_index(&self) -> usize
        ensures { result ≡ (shown_by self.now).column }
    {
        match self {
            CellRef::CellRef { cell_index, .. } | CellRef::ClusterRef { cell_index, .. } =>
                *cell_index,
        }
    }

    /// The text.
    pub fn str(&self) -> &'a str
        ensures { result.now ≡ (shown_by self.now).cell.text }
    {
        match self {
            CellRef::CellRef { cell, .. } => cell.str(),
            CellRef::ClusterRef { text, .. } => text,
        }
    }

    /// The columns that the cell takes: 1 or 2.
    pub fn width(&self) -> usize
        ensures { result ≡ (shown_by self.now).cell.width }
    {
        match self {
            CellRef::CellRef { cell, .. } => column_count(cell),
            CellRef::ClusterRef { width, .. } => { if *width >= 2 { 2 } else { 1 } }
        }
    }

    /// The attributes.
    pub fn attrs(&self) -> &'a CellAttributes
        ensures { result.now ≡ (shown_by self.now).cell.attributes }
    {
        match self {
            CellRef::CellRef { cell, .. } => cell.attrs(),
            CellRef::ClusterRef { attrs, .. } => attrs,
        }
    }

    /// A copy of the cell: a space of width 1 where its text shows as a space, and else the cell that
    /// is shown.
    pub fn as_cell(&self, alloc: Global) -> Result<Cell, AllocError>
        ensures copy { IfOk result (λ cell. cell ≡ copied_by self.now) }
        ensures shown { IfOk result (λ cell. cell ≡ copy_of (shown_by self.now).cell) }
        ensures same { IfOk result
            (λ cell. shows_as_space (shown_by self.now).cell.text ≡ false → cell ≡ (shown_by self.now).cell) }
    {
        match self {
            CellRef::CellRef { cell, .. } => cell.try_clone(),
            CellRef::ClusterRef {
                text,
                width,
                attrs,
                ..
            } => {
                let width = if *width >= 2 { 2 } else { 1 };
                Cell::new_grapheme_with_width(alloc, text, width, attrs.try_clone()?)
            }
        }
    }

    // A cell of a clustered row.
    #[inline(always)]
    pub(crate) fn from_clustered(cell: &ClusteredCell<'a>) -> CellRef<'a>
        ensures { shown_by result ≡ clustered.shown_by cell.now }
    {
        CellRef::ClusterRef {
            cell_index: cell.column,
            text: cell.text,
            width: cell.width(),
            attrs: cell.attributes,
        }
    }

    // Whether the attributes are the same.
    fn same_attrs(&self, other: &CellRef<'_>) -> bool
        ensures { IsTrue result ↔ ((shown_by self.now).cell.attributes ≡ (shown_by other.now).cell.attributes) }
    {
        *self.attrs() == *other.attrs()
    }

    /// Whether text, width and attributes are the same.
    #[tactic(auto, using(crate::proofs::VisibleLemmas::same_by_parts))]
    pub fn same_contents(&self, other: &CellRef<'_>) -> bool
        ensures { IsTrue result ↔ ((shown_by self.now).cell ≡ (shown_by other.now).cell) }
    {
        if self.str() != other.str() {
            return false;
        }
        if self.width() != other.width() {
            return false;
        }
        self.same_attrs(other)
    }
}
