//! Which pages a list leads to.

ghost use Rattle.std.specs.Prelude.{◌≡◌, ◌<◌, ◌==◌, ◌||◌, ℕ, false, not, length, IfOk, OnOk};
ghost use Rattle.link_groups.specs.PageMarks as spec;

use std::alloc::{AllocError, Global};

// A set of pages: a mark for each page up to the largest that was put in. A plan has at most 4,096
// pages, so a lookup costs less than in a tree, and the marks take little.
#[derive(Drop)]
pub(crate) struct PageMarks {
    marks: Vec<bool>,
}

impl PageMarks {
    pub(crate) fn new(alloc: Global) -> PageMarks
        ensures { (page : ℕ) → spec.has_mark page result ≡ false }
    {
        PageMarks {
            marks: Vec::new(alloc),
        }
    }

    // Puts a page in, and answers whether it was not there.
    pub(crate) fn insert(&mut self, page: u32) -> Result<bool, AllocError>
        ensures added { IfOk result (λ added. added ≡ not (spec.has_mark page self.old)) }
        ensures marks { OnOk result ((other : ℕ) → spec.has_mark other self.new
            ≡ ((other == page) || spec.has_mark other self.old)) }
    {
        self.make_room(page)?;
        let mark = &mut self.marks[page as usize];
        let is_new = !*mark;
        *mark = true;
        Ok(is_new)
    }

    // Makes room for the mark of a page.
    fn make_room(&mut self, page: u32) -> Result<(), AllocError>
        ensures room { OnOk result (page < length self.new.marks.items) }
        ensures same { OnOk result ((other : ℕ) → spec.has_mark other self.new
            ≡ spec.has_mark other self.old) }
    {
        while self.marks.len() <= page as usize {
            self.marks.push(false)?;
        }
        Ok(())
    }
}
