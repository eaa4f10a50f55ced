//! The lists that are open while the items are written.

ghost use Rattle.std.specs.Prelude.{◌≡◌, ◌++◌, OnOk};
ghost use Rattle.toc_page.specs.Opened as spec;

use dita_doc::{NoMemory, Text};
use std::alloc::{AllocError, Global};
use std::mem;

// An item that is open: the place just past its subtree, and whether a list of items below it was
// begun.
#[derive(Clone, Copy)]
struct OpenItem {
    end: u32,
    has_list: bool,
}

/// The items that are open, the outermost first, and whether the list of the page was begun.
#[derive(Drop)]
pub(crate) struct OpenItems {
    items: Vec<OpenItem>,
    has_list: bool,
}

impl OpenItems {
    ghost use Rattle.std.specs.Prelude.{◌≡◌, ◌++◌, false, IfOk, OnOk};
    ghost use Rattle.toc_page.specs.Opened as spec;

    /// Nothing is open.
    pub fn new(alloc: Global) -> OpenItems
        ensures { spec.stack_of result ≡ spec.Page false }
    {
        OpenItems {
            items: Vec::new(alloc),
            has_list: false,
        }
    }

    /// Ends the items that stand before a place and not around it, and begins a list there, if none
    /// is begun. The item that follows ends at the place `end`.
    pub fn begin_item(&mut self, out: &mut Text, place: usize, end: u32) -> Result<(), NoMemory>
        ensures text { OnOk result (out.new
            ≡ out.old ++ spec.before_item place (spec.stack_of self.old)) }
        ensures stack { OnOk result (spec.stack_of self.new
            ≡ spec.opened place end (spec.stack_of self.old)) }
    {
        self.close_before(out, place)?;
        let was_begun = self.begin_list()?;
        append_begin(out, was_begun)?;
        self.items.push(OpenItem {
            end,
            has_list: false,
        })?;
        Ok(())
    }

    /// Ends all items, and the list of the page.
    pub fn close(&mut self, out: &mut Text) -> Result<(), AllocError>
        ensures { OnOk result (out.new ≡ out.old ++ spec.ends_all (spec.stack_of self.old)) }
    {
        while let Some(item) = self.items.pop() {
            append_end(out, item)?;
        }
        if self.has_list {
            out.append("</ul>")?;
        }
        Ok(())
    }

    fn close_before(&mut self, out: &mut Text, place: usize) -> Result<(), NoMemory>
        ensures text { OnOk result (out.new
            ≡ out.old ++ spec.ends_before place (spec.stack_of self.old)) }
        ensures stack { OnOk result (spec.stack_of self.new
            ≡ spec.around_place place (spec.stack_of self.old)) }
    {
        while let Some(item) = self.items.pop() {
            if item.end as usize > place {
                self.items.push(item)?;
                return Ok(());
            }
            append_end(out, item)?;
        }
        Ok(())
    }

    // Marks the list of the innermost item, or of the page, as begun, and tells whether it was.
    fn begin_list(&mut self) -> Result<bool, NoMemory>
        ensures was { IfOk result (λ was. was ≡ spec.has_list (spec.stack_of self.old)) }
        ensures stack { OnOk result (spec.stack_of self.new
            ≡ spec.with_list (spec.stack_of self.old)) }
    {
        let Some(item) = self.items.pop() else {
            return Ok(mem::replace(&mut self.has_list, true));
        };
        self.items.push(OpenItem {
            end: item.end,
            has_list: true,
        })?;
        Ok(item.has_list)
    }
}

// Begins a list, unless it was begun.
fn append_begin(out: &mut Text, was_begun: bool) -> Result<(), AllocError>
    ensures { OnOk result (out.new ≡ out.old ++ spec.begin_text was_begun) }
{
    if was_begun {
        return Ok(());
    }
    out.append("<ul>")
}

fn append_end(out: &mut Text, item: OpenItem) -> Result<(), AllocError>
    ensures { OnOk result (out.new ≡ out.old ++ spec.item_end item) }
{
    if item.has_list {
        out.append("</ul>")?;
    }
    out.append("</li>")
}
