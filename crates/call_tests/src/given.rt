//! What the tests are given: texts, names, and documents as lines of PYX.

use dita_doc::{Doc, Name, Text};
use pyx_text::read_pyx;
use std::alloc::{AllocError, Global};

/// The text of these characters.
pub fn text(alloc: Global, text: &str) -> Result<Text, AllocError> {
    Text::from_str(alloc, text)
}

/// This document name. A text that is none counts as out of memory: no test gives one.
pub fn name(alloc: Global, text: &str) -> Result<Name, AllocError> {
    Name::parse(alloc, text).map_err(|_| AllocError)
}

/// The document `a.dita` of these lines. Lines that are no document count as out of memory.
pub fn document(alloc: Global, lines: &str) -> Result<Doc, AllocError> {
    read_pyx(alloc, &name(alloc, "a.dita")?, lines.as_bytes()).map_err(|_| AllocError)
}
