use std::alloc::{AllocError, Global};

/// What was taken out of a line, from the least of which something may follow.
#[derive(Clone, Copy, PartialEq, Eq, PartialOrd, Ord)]
pub(crate) enum Mark {
    /// Nothing, or a comment.
    None,
    /// What leaves the current result as it is: a store, a call, or an initial value.
    Aside,
    /// An instruction or a declaration.
    Taken,
    /// The words of a section, but for VAR.
    Section,
    /// A line of a body that may have had a label.
    Unlabelled,
    /// A parenthesis whose other one is not found.
    Unpaired,
    /// Malformed slices, so far; the rest of the line, if there is one, is still there.
    Uncut,
    /// A declaration whose names may be others than they seem to be.
    Unnamed,
}

/// What was taken out of each line of a text.
#[derive(Drop)]
pub(crate) struct Marks {
    lines: Vec<Mark>,
}

impl Marks {
    /// Nothing was taken out of a text.
    pub(crate) fn new(alloc: Global, text: &[u8]) -> Result<Marks, AllocError> {
        let feeds = text.iter().filter(|byte| **byte == b'\n').count();
        let mut lines = Vec::new(alloc);
        lines.resize(feeds.saturating_add(2), Mark::None)?;
        Ok(Marks { lines })
    }

    /// Marks these lines, counted from 1, if they have no greater mark, or one of malformed slices.
    pub(crate) fn set_all(&mut self, first: u32, last: u32, mark: Mark) {
        for line in first..last.saturating_add(1) {
            if let Some(found) = self.lines.get_mut(line as usize) {
                if *found == Mark::Uncut && mark > Mark::None {
                    *found = Mark::None;
                }
                *found = mark.max(*found);
            }
        }
    }

    /// The marks of these lines.
    fn between(&self, first: u32, last: u32) -> &[Mark] {
        let end = (last as usize).saturating_add(1).min(self.lines.len());
        self.lines.get(first as usize..end).unwrap_or(&[])
    }

    /// Whether one of these lines has that mark.
    pub(crate) fn has(&self, first: u32, last: u32, mark: Mark) -> bool {
        self.between(first, last).iter().any(|found| *found == mark)
    }

    /// Whether one of these lines has that mark or a greater one.
    pub(crate) fn any(&self, first: u32, last: u32, mark: Mark) -> bool {
        self.between(first, last).iter().any(|found| *found >= mark)
    }
}
