//! Events of a book, without a desk. What is expected is derived from the rules by hand.

use crate::toy::{ToyParts, idle_judge, name, remove};
use desk_core::{Answer, Book, Event, Limits};
use dita_doc::{Reply, Stop};
use std::test::Fail;

// A history that may have one entry has one, of one byte, and takes no more.
#[test]
fn a_full_book_says_what_stands_in_it(rt: HostRuntime) -> Result<(), Fail> {
    let alloc = rt.alloc();
    let text = name(alloc, "a")?;
    let limits = Limits {
        entries: 1,
        ..Limits::standard()
    };
    let Ok(mut book) = Book::<ToyParts>::new(alloc, limits) else {
        return Err(Fail::new("no book"));
    };
    let mut judge = idle_judge(alloc, &text)?;
    let event = Event::Commit(1, 1, remove(&text)?);
    let first = book.step(alloc, event, &mut judge);
    assert!(rt; matches!(&first, Ok(Answer::Placed(0, Reply::Absent))));
    let event = Event::Commit(1, 2, remove(&text)?);
    let Err(Stop::Fault(full)) = book.step(alloc, event, &mut judge) else {
        return Err(Fail::new("not full"));
    };
    assert_eq!(rt; (full.entries, full.bytes), (1, 1));
    assert_eq!(rt; book.store().entries(), 1);
    Ok(())
}
