//! How many cases ran, by kind.
use crate::fault::Fault;
use std::alloc::Global;
use std::io::Write;

// The cases of a kind.
#[derive(Drop)]
struct Count {
    kind: String,
    ran: usize,
    failed: usize,
}

impl Count {
    // One more case.
    fn count(&mut self, is_right: bool) {
        self.ran = self.ran.saturating_add(1);
        if !is_right {
            self.failed = self.failed.saturating_add(1);
        }
    }
}

/// How many cases ran of each kind, in the order in which kinds came, and how many of them failed.
#[derive(Drop)]
pub struct Tally {
    counts: Vec<Count>,
    unread: usize,
}

impl Tally {
    /// No case.
    pub fn new(alloc: Global) -> Tally {
        Tally {
            counts: Vec::new(alloc),
            unread: 0,
        }
    }

    /// Counts a case.
    pub fn count(&mut self, alloc: Global, kind: &str, is_right: bool) -> Result<(), Fault> {
        for count in self.counts.iter_mut() {
            if count.kind.as_str() == kind {
                count.count(is_right);
                return Ok(());
            }
        }
        let mut first = Count {
            kind: String::from_str(alloc, kind)?,
            ran: 0,
            failed: 0,
        };
        first.count(is_right);
        self.counts.push(first)?;
        Ok(())
    }

    /// Counts a line that can't be read.
    pub fn count_unread(&mut self) {
        self.unread = self.unread.saturating_add(1);
    }

    /// Whether each line could be read and no case failed.
    pub fn is_right(&self) -> bool {
        self.unread == 0 && self.counts.iter().all(|count| count.failed == 0)
    }

    /// Writes a line for each kind, and one for all.
    pub fn report<W: Write>(&self, out: &mut W) -> Result<(), Fault> {
        let mut ran = 0usize;
        let mut failed = 0usize;
        for count in &self.counts {
            write_count(out, count.kind.as_str(), count.ran, count.failed)?;
            ran = ran.saturating_add(count.ran);
            failed = failed.saturating_add(count.failed);
        }
        if self.unread > 0 {
            let unread = self.unread;
            writeln!(out, "{unread} lines can't be read")?;
        }
        write_count(out, "all", ran, failed)
    }
}

// Writes one line.
fn write_count<W: Write>(out: &mut W, kind: &str, ran: usize, failed: usize) -> Result<(), Fault> {
    writeln!(out, "{kind:<16} {ran:>5} cases, {failed} differ")?;
    Ok(())
}
