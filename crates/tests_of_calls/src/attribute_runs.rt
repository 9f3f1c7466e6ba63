//! Edits of runs against a plain list of the columns' attributes.
use cell_base::{CellAttributes, Hyperlink};
use clustered_row::Runs;
use std::process::Abort;
use std::rc::Rc;

// Plain attributes, italic ones, and two links.
pub(crate) fn palette<R: Abort + AllocGlobal>(rt: &R) -> Vec<CellAttributes> {
    let mut palette = Vec::new(rt.alloc());
    palette.push(CellAttributes::blank()).expect(rt, "memory");
    let mut italic = CellAttributes::blank();
    italic.set_italic(true);
    palette.push(italic).expect(rt, "memory");
    for uri in ["u", "v"] {
        let link = Hyperlink::new(rt.alloc(), uri).expect(rt, "memory");
        let mut linked = CellAttributes::blank();
        linked.set_hyperlink(Some(Rc::new(rt.alloc(), link).expect(rt, "memory")));
        palette.push(linked).expect(rt, "memory");
    }
    palette
}

// Numbers as if at random, each below a bound.
#[derive(Drop)]
pub(crate) struct Numbers {
    pub(crate) last: u32,
}

impl Numbers {
    pub(crate) fn below(&mut self, bound: usize) -> usize {
        self.last = self
            .last
            .wrapping_mul(1_664_525)
            .wrapping_add(1_013_904_223);
        if bound == 0 {
            return 0;
        }
        (self.last >> 8) as usize % bound
    }
}

// Sets the kind of the columns from `a` to before `b`.
fn paint(kinds: &mut [usize], a: usize, b: usize, kind: usize) {
    for (column, old) in kinds.iter_mut().enumerate() {
        if a <= column && column < b {
            *old = kind;
        }
    }
}

// How many runs these kinds need.
fn count_runs(kinds: &[usize]) -> usize {
    let mut runs: usize = 0;
    let mut last = usize::MAX;
    for kind in kinds {
        if *kind != last {
            runs = runs.saturating_add(1);
        }
        last = *kind;
    }
    runs
}

// Whether the runs show these kinds, and are as few as can be.
fn shows(runs: &Runs, palette: &[CellAttributes], kinds: &[usize]) -> bool {
    for (column, kind) in kinds.iter().enumerate() {
        match palette.get(*kind) {
            Some(attributes) if has(runs, column, attributes) => {}
            _ => return false,
        }
    }
    runs.len() == kinds.len() && runs.stored().len() == count_runs(kinds)
}

// Adds columns; returns whether they were added.
fn add(runs: &mut Runs, count: usize, attributes: &CellAttributes) -> bool {
    let most = 1 << 40;
    count < most && runs.len() < most && runs.push(count, attributes).is_ok()
}

// Sets the attributes of the columns from `a` to before `b`; returns whether they were set.
fn give(runs: &mut Runs, a: usize, b: usize, attributes: &CellAttributes) -> bool {
    a <= b && b <= runs.len() && runs.set(a, b, attributes).is_ok()
}

// Whether a column has these attributes.
fn has(runs: &Runs, column: usize, attributes: &CellAttributes) -> bool {
    column < runs.len() && *runs.at(column) == *attributes
}

// Does a random edit of the runs and of the kinds; returns whether both took it.
fn edit(
    runs: &mut Runs,
    kinds: &mut Vec<usize>,
    attributes: &CellAttributes,
    kind: usize,
    numbers: &mut Numbers,
) -> bool {
    let len = runs.len();
    match numbers.below(12) {
        0 => {
            let count = numbers.below(9);
            for _ in 0..count {
                if kinds.push(kind).is_err() {
                    return false;
                }
            }
            add(runs, count, attributes)
        }
        1 => {
            let at = numbers.below(80);
            runs.cut(at);
            kinds.truncate(at);
            true
        }
        _ => {
            let b = numbers.below(len.saturating_add(1));
            let a = numbers.below(b.saturating_add(1));
            paint(kinds, a, b, kind);
            give(runs, a, b, attributes)
        }
    }
}

#[test]
fn edits_show_what_a_list_shows(rt: HostRuntime) {
    let palette = palette(&rt);
    let mut runs = Runs::new(rt.alloc());
    let mut kinds = Vec::new(rt.alloc());
    let mut numbers = Numbers { last: 1 };
    for _ in 0..4000 {
        let kind = numbers.below(palette.len());
        let taken = match palette.get(kind) {
            Some(attributes) => edit(&mut runs, &mut kinds, attributes, kind, &mut numbers),
            None => false,
        };
        assert!(rt; taken);
        assert!(rt; shows(&runs, &palette, &kinds));
    }
    let copy = runs.try_clone().expect(&rt, "memory");
    runs.clear();
    assert!(rt; shows(&copy, &palette, &kinds));
    assert_eq!(rt; runs.len(), 0);
}

#[test]
fn a_run_is_full(rt: HostRuntime) {
    let full = 4_294_967_295;
    let plain = CellAttributes::blank();
    let mut italic = CellAttributes::blank();
    italic.set_italic(true);
    let mut runs = Runs::new(rt.alloc());
    assert!(rt; add(&mut runs, full + 5, &plain));
    assert_eq!(rt; runs.stored().len(), 2);
    assert!(rt; give(&mut runs, full - 2, full + 2, &italic));
    assert_eq!(rt; runs.len(), full + 5);
    assert_eq!(rt; runs.stored().len(), 3);
    assert!(rt; has(&runs, full - 3, &plain));
    assert!(rt; has(&runs, full - 2, &italic));
    assert!(rt; has(&runs, full + 1, &italic));
    assert!(rt; has(&runs, full + 2, &plain));
    runs.cut(full - 2);
    assert!(rt; add(&mut runs, 2, &plain));
    assert_eq!(rt; runs.stored().len(), 1);
    assert!(rt; add(&mut runs, 1, &plain));
    assert_eq!(rt; runs.stored().len(), 2);
}
