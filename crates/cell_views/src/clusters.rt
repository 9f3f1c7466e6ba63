//! Clusters of a line: neighbouring cells that are shown together.
ghost use Rattle.std.specs.Prelude.{◌≡◌, ◌<◌, ◌-◌, List, [], ◌∷◌, length, map, true, false, not, ◌&&◌, ◌||◌};
ghost use Rattle.std.specs.Prelude.{slice_index, slice_set, slice_index_or, vec_len, IfOk, OnOk};
ghost use Rattle.std.specs.Iterator.{IsFinite, Drains};
ghost use Rattle.cell_base.specs.SameAttributes.{same_attributes};
ghost use Rattle.cell_views.specs.CellRefView.{shown_by};
ghost use Rattle.cell_edits.specs.VisibleCells.{VisibleCell};
ghost use Rattle.cell_views.specs.Groups.{joined};
ghost use Rattle.cell_views.specs.Clusters.{ClusterContent, unwrapped, cluster_of, begins_cluster, cell_clusters};
ghost use Rattle.cell_views.specs.ClusterView.{grown, begins_after, IsMadeOf};
ghost use Rattle.cell_views.specs.declared.cell_ref.CellRef.{CellRef};

use crate::byte_columns::ByteColumns;
use crate::cell_ref::CellRef;
use crate::query::is_space;
use cell_base::CellAttributes;
use std::alloc::{AllocError, Global};
use std::marker::Model;

// The attributes, as of a cell after which the line doesn't go on.
fn unwrapped(attrs: &CellAttributes) -> Result<CellAttributes, AllocError>
    ensures { IfOk result (λ copy. copy ≡ unwrapped attrs.now) }
{
    let mut copy = attrs.try_clone()?;
    copy.set_wrapped(false);
    Ok(copy)
}

/// Neighbouring visible cells that are shown together. A cell begins a new cluster where its
/// attributes differ from the cluster's, where it is no space and follows a space, and where it is
/// a space and follows a space in a cluster that holds another text too. Whether the line goes on after
/// a cell makes no difference, and a cluster's attributes say that it doesn't.
#[derive(Debug, Drop)]
pub struct CellCluster {
    /// The attributes of its first cell, as of one after which the line doesn't go on.
    pub attrs: CellAttributes,
    /// The texts of its cells, joined.
    pub text: String,
    /// The columns that its cells take.
    pub width: usize,
    /// The first column of its first cell, counted from 0.
    pub first_cell_idx: usize,
    byte_columns: ByteColumns,
}

impl Model for CellCluster {
    ghost use Rattle.cell_views.specs.Clusters.{ClusterContent};

    ghost Value = { ClusterContent };

    ghost use Rattle.cell_views.specs.ClusterView.{content_of, IsPlaced};

    ghost view = { content_of };

    ghost invariant = { IsPlaced };
}

impl CellCluster {
    /// The clusters of cells, in order. The text of each has room for `hint` bytes at first.
    pub fn make_cluster<'a, I: Iterator<Item = CellRef<'a>> + Drop>(
        alloc: Global,
        hint: usize,
        iter: I,
    ) -> Result<Vec<CellCluster>, AllocError>
        requires can { I.can_next iter }
        requires ends { IsFinite (I.remaining iter) }
        ensures { IfOk result
            (λ clusters. (cells : List CellRef) × Drains I.next_gives iter cells
            × (clusters.items ≡ cell_clusters (map shown_by cells))) }
    {
        let mut clusters = Clusters::new(alloc, hint);
        for cell in iter {
            clusters.push_cell(&cell)?;
        }
        Ok(clusters.made)
    }

    /// The first column of the cell that a byte of the text belongs to.
    pub fn byte_to_cell_idx(&self, byte_idx: usize) -> usize
        requires { byte_idx < length self.now.text }
        ensures { result ≡ slice_index self.now.columns byte_idx }
    {
        self.byte_columns.column(byte_idx)
    }

    /// The columns, 1 or 2, of the cell that a byte of the text belongs to.
    pub fn byte_to_cell_width(&self, byte_idx: usize) -> u8
        requires { byte_idx < length self.now.text }
        ensures { result ≡ slice_index self.now.widths byte_idx }
    {
        self.byte_columns.width(byte_idx)
    }

    /// A copy.
    pub fn try_clone(&self) -> Result<CellCluster, AllocError>
        ensures { IfOk result (λ copy. copy ≡ self.now) }
    {
        Ok(CellCluster {
            attrs: self.attrs.try_clone()?,
            text: self.text.clone()?,
            width: self.width,
            first_cell_idx: self.first_cell_idx,
            byte_columns: self.byte_columns.try_clone()?,
        })
    }

    // Whether the cell has the attributes of the cluster.
    fn has_attrs_of(&self, cell: &CellRef<'_>) -> Result<bool, AllocError>
        ensures { IfOk result
            (λ same. same ≡ same_attributes self.now.attributes (unwrapped (shown_by cell.now).cell.attributes)) }
    {
        let attrs = cell.attrs();
        if !attrs.wrapped() {
            return Ok(self.attrs == *attrs);
        }
        let attrs = unwrapped(attrs)?;
        Ok(self.attrs == attrs)
    }

    // The cluster of one cell.
    fn of_cell(alloc: Global, hint: usize, cell: &CellRef<'_>) -> Result<CellCluster, AllocError>
        ensures { IfOk result (λ cluster. cluster ≡ cluster_of (shown_by cell.now ∷ [])) }
    {
        let mut cluster = CellCluster {
            attrs: unwrapped(cell.attrs())?,
            text: String::with_capacity(alloc, hint)?,
            width: 0,
            first_cell_idx: cell.cell_index(),
            byte_columns: ByteColumns::new(alloc, cell.cell_index()),
        };
        cluster.grow(cell)?;
        Ok(cluster)
    }

    // Appends the cell to the cluster.
    fn grow(&mut self, cell: &CellRef<'_>) -> Result<(), AllocError>
        ensures { OnOk result (self.new ≡ grown self.old (shown_by cell.now)) }
    {
        let width = cell.width();
        let column = cell.cell_index();
        self.width = self.width.checked_add(width).ok_or(AllocError)?;
        self.byte_columns.push(cell.str(), column, width as u8)?;
        self.text.push_str(cell.str())?;
        Ok(())
    }
}

// Appends the cell to the last cluster.
fn grow_last(clusters: &mut Vec<CellCluster>, cell: &CellRef<'_>) -> Result<(), AllocError>
    requires { 0 < vec_len clusters.old }
    ensures { (d : ClusterContent)
        → OnOk result
        (clusters.new.items
        ≡ slice_set clusters.old.items (vec_len clusters.old - 1)
        (grown (slice_index_or clusters.old.items (vec_len clusters.old - 1) d) (shown_by cell.now))) }
{
    let last = clusters.len() - 1;
    clusters[last].grow(cell)
}

// Whether a cell begins a cluster. `same`: it has the attributes of the last cluster; `space`: it is a
// space; `ends_in_space`: the last cell of that cluster is a space; `holds_text`: one of its cells isn't.
fn breaks(same: bool, space: bool, ends_in_space: bool, holds_text: bool) -> bool
    ensures { result ≡ (not same || not space && ends_in_space || space && ends_in_space && holds_text) }
{
    if !same {
        return true;
    }
    ends_in_space && (!space || holds_text)
}

// Clusters that are being made, and what is known of the last one.
#[derive(Drop)]
struct Clusters {
    alloc: Global,
    hint: usize,
    made: Vec<CellCluster>,
    ends_in_space: bool,
    holds_text: bool,
}

impl Clusters {
    fn new(alloc: Global, hint: usize) -> Clusters
        ensures { IsMadeOf [] result }
    {
        Clusters {
            alloc,
            hint,
            made: Vec::new(alloc),
            ends_in_space: false,
            holds_text: false,
        }
    }

    // Whether the cell begins a cluster.
    fn begins(&self, cell: &CellRef<'_>) -> Result<bool, AllocError>
        ensures exact { IfOk result
            (λ begins. (groups : List (List VisibleCell)) → IsMadeOf groups self.now
            → begins ≡ begins_after groups (shown_by cell.now)) }
        ensures first { IfOk result (λ begins. begins ≡ false → 0 < vec_len self.now.made) }
    {
        match self.made.last() {
            None => Ok(true),
            Some(last) => {
                let same = last.has_attrs_of(cell)?;
                let space = is_space(cell.str());
                Ok(breaks(same, space, self.ends_in_space, self.holds_text))
            }
        }
    }

    // Begins a cluster with the cell.
    fn begin(&mut self, cell: &CellRef<'_>) -> Result<(), AllocError>
        ensures { (groups : List (List VisibleCell)) → IsMadeOf groups self.old
            → begins_after groups (shown_by cell.now) ≡ true
            → OnOk result (IsMadeOf (joined begins_cluster groups (shown_by cell.now)) self.new) }
    {
        let space = is_space(cell.str());
        self.made
            .push(CellCluster::of_cell(self.alloc, self.hint, cell)?)?;
        self.ends_in_space = space;
        self.holds_text = !space;
        Ok(())
    }

    // Appends the cell to the last cluster.
    fn join(&mut self, cell: &CellRef<'_>) -> Result<(), AllocError>
        requires { 0 < vec_len self.old.made }
        ensures { (groups : List (List VisibleCell)) → IsMadeOf groups self.old
            → begins_after groups (shown_by cell.now) ≡ false
            → OnOk result (IsMadeOf (joined begins_cluster groups (shown_by cell.now)) self.new) }
    {
        let space = is_space(cell.str());
        grow_last(&mut self.made, cell)?;
        self.ends_in_space = space;
        self.holds_text |= !space;
        Ok(())
    }

    // The cell joins the last cluster, or begins one.
    fn push_cell(&mut self, cell: &CellRef<'_>) -> Result<(), AllocError>
        ensures { (groups : List (List VisibleCell)) → IsMadeOf groups self.old
            → OnOk result (IsMadeOf (joined begins_cluster groups (shown_by cell.now)) self.new) }
    {
        if self.begins(cell)? {
            return self.begin(cell);
        }
        self.join(cell)
    }
}
