//! Entries, by the book alone and at a desk.

use crate::desk::{name, no_limits, started};
use crate::language::{BenchJudge, BenchParts};
use desk_core::{Book, Event};
use dita_doc::{Request, Sources};
use std::alloc::{AllocError, Global};
use std::sync::{Arc, Wait};

/// The book after so many entries, each an event of the book. Each removes what is not stored.
pub fn steps(alloc: Global, times: u32) -> Result<Book<BenchParts>, AllocError> {
    let map = name(alloc, "a")?;
    let mut book = Book::new(alloc, no_limits()).map_err(|_| AllocError)?;
    let mut judge = BenchJudge {
        sources: Arc::new(alloc, Sources::new(alloc))?,
        map: map.clone()?,
    };
    for number in 0..times {
        let event = Event::Commit(0, number, Request::Remove(map.clone()?));
        if book.step(alloc, event, &mut judge).is_err() {
            return Err(AllocError);
        }
    }
    Ok(book)
}

/// The same at a desk.
pub fn edits<R: Wait>(rt: &R, alloc: Global, times: u32) -> Result<Book<BenchParts>, AllocError> {
    let map = name(alloc, "a")?;
    let (desk, mut pass) = started(alloc)?;
    for number in 0..times {
        let request = Request::Remove(map.clone()?);
        if desk.edit(rt, alloc, &mut pass, number, request).is_err() {
            return Err(AllocError);
        }
    }
    Ok(desk.close(rt, pass))
}
