//! Clusters of some of a line's cells, and copies of them. か has width 2.
use cell_base::ProgramWidth;
use cell_line::{CellCluster, Line};
use std::process::Abort;

fn line_of<R: Abort + AllocGlobal>(rt: &R, text: &str) -> Line {
    Line::try_from_text(rt.alloc(), text, &ProgramWidth).expect(rt, "memory")
}

// The first column and the columns of the cell that a byte belongs to.
fn position(cluster: &CellCluster, byte: usize) -> Option<(usize, u8)> {
    if byte < cluster.text.len() {
        Some((
            cluster.byte_to_cell_idx(byte),
            cluster.byte_to_cell_width(byte),
        ))
    } else {
        None
    }
}

// The cluster has this text, `width` columns, this first column, and these positions of its bytes.
fn assert_cluster<R: Abort>(
    rt: &R,
    cluster: &CellCluster,
    text: &str,
    width: usize,
    first_cell_idx: usize,
    positions: &[(usize, u8)],
) {
    assert_eq!(rt; cluster.text.as_str(), text);
    assert_eq!(rt; cluster.width, width);
    assert_eq!(rt; cluster.first_cell_idx, first_cell_idx);
    for (byte, expected) in positions.iter().enumerate() {
        assert_eq!(rt; position(cluster, byte), Some(*expected));
    }
    assert_eq!(rt; position(cluster, positions.len()), None);
}

#[test]
fn clusters_of_part_of_a_line(rt: HostRuntime) {
    let line = line_of(&rt, "abc d");
    let part = line.visible_cells().skip(1);
    let clusters = CellCluster::make_cluster(rt.alloc(), 8, part).expect(&rt, "memory");
    assert_eq!(rt; clusters.len(), 2);
    let first = clusters.first().expect(&rt, "cluster");
    assert_cluster(&rt, first, "bc ", 3, 1, &[(1, 1), (2, 1), (3, 1)]);
}

#[test]
fn clusters_of_cells_independent(rt: HostRuntime) {
    let line = line_of(&rt, "abc");
    let ends = line.visible_cells().filter(|cell| cell.cell_index() != 1);
    let clusters = CellCluster::make_cluster(rt.alloc(), 0, ends).expect(&rt, "memory");
    let cluster = clusters.first().expect(&rt, "cluster");
    assert_cluster(&rt, cluster, "ac", 2, 0, &[(0, 1), (2, 1)]);
}

#[test]
fn copied_clusters(rt: HostRuntime) {
    let clusters = line_of(&rt, "\u{304b}b").cluster().expect(&rt, "memory");
    let cluster = clusters.first().expect(&rt, "cluster");
    let copy = cluster.try_clone().expect(&rt, "memory");
    assert_cluster(
        &rt,
        &copy,
        "\u{304b}b",
        3,
        0,
        &[(0, 2), (0, 2), (0, 2), (2, 1)],
    );
}
