//! A list, seen by contracts as the list of its items.

ghost use Rattle.std.specs.Prelude.{◌≡◌, ◌<◌, ◌==◌, ◌^◌, [], ◌∷◌, ◌++◌, length, is_ok, if◌then◌else◌, IfOk};

use std::alloc::{AllocError, Global};
use std::cmp::Ordering;
use std::marker::Model;

/// A growing list. It takes memory only if it grows or is copied.
#[derive(Debug, Drop)]
pub struct List<T> {
    content: Vec<T>,
}

impl<T> Model for List<T> {
    ghost use Rattle.std.specs.Prelude.{List};

    ghost Value = { List T };

    ghost view = { λ l. l.content.items };
}

impl<T> List<T> {
    /// The empty list, which takes no memory.
    pub fn new(alloc: Global) -> Self
        ensures { result ≡ [] }
    {
        List {
            content: Vec::new(alloc),
        }
    }

    /// The list of a vector's elements, in its memory.
    pub fn from_vec(content: Vec<T>) -> Self
        ensures { result ≡ content.items }
    {
        List { content }
    }

    /// The vector of the elements, in the same memory.
    pub fn into_vec(self) -> Vec<T>
        ensures { result.items ≡ self }
    {
        let List { content } = self;
        content
    }

    pub fn as_slice(&self) -> &[T]
        ensures { result.now ≡ self.now }
    {
        &self.content
    }

    /// How many elements it has.
    pub fn len(&self) -> usize
        ensures length { result ≡ length self.now }
        ensures bound { result < 2 ^ 63 }
    {
        self.content.len()
    }

    pub fn is_empty(&self) -> bool
        ensures { result ≡ (length self.now == 0) }
    {
        self.content.is_empty()
    }

    /// Appends a value. Without memory the list stays as it was.
    pub fn push(&mut self, value: T) -> Result<(), AllocError>
    where
        T: Drop,
        ensures { self.new ≡ (if is_ok result then self.old ++ value ∷ [] else self.old) }
    {
        self.content.push(value)?;
        Ok(())
    }
}

impl List<u8> {
    /// The bytes of a slice.
    pub fn from_slice(alloc: Global, bytes: &[u8]) -> Result<List<u8>, AllocError>
        ensures { IfOk result (λ list. list ≡ bytes.now) }
    {
        Ok(List {
            content: Vec::from_slice(alloc, bytes)?,
        })
    }

    /// Appends bytes. Without memory the list stays as it was.
    pub fn append(&mut self, bytes: &[u8]) -> Result<(), AllocError>
        ensures { self.new ≡ (if is_ok result then self.old ++ bytes.now else self.old) }
    {
        self.content.extend_from_slice(bytes)
    }
}

impl<T: PartialEq> PartialEq for List<T> {
    ghost use Rattle.std.specs.Cmp.Lexicographic.{lists_per, pointwise};

    ghost eq = { pointwise T.eq };

    ghost laws = { lists_per T.laws };

    fn eq(&self, other: &Self) -> bool {
        self.content.as_slice() == other.content.as_slice()
    }
}

impl<T: Eq> Eq for List<T> {
    ghost use Rattle.std.specs.Cmp.Lexicographic.{lists_equiv};

    ghost laws = { lists_equiv T.Eq.laws };
}

impl<T: PartialOrd> PartialOrd for List<T> {
    ghost use Rattle.std.specs.Cmp.Lexicographic.{lists_po, slice_partial_cmp};

    ghost partial_cmp = { slice_partial_cmp T.partial_cmp };

    ghost laws = { lists_po T.PartialOrd.laws };

    fn partial_cmp(&self, other: &Self) -> Option<Ordering> {
        self.content
            .as_slice()
            .partial_cmp(&other.content.as_slice())
    }
}

impl<T: Ord> Ord for List<T> {
    ghost use Rattle.std.specs.Cmp.Lexicographic.{lists_agrees, lists_ties, lists_total, slice_cmp};

    ghost cmp = { slice_cmp T.cmp };

    ghost total = { lists_total T.total };

    ghost matches_partial_cmp = { lists_agrees T.matches_partial_cmp };

    ghost matches_eq = { lists_ties T.cmp T.matches_eq };

    fn cmp(&self, other: &Self) -> Ordering {
        self.content.as_slice().cmp(&other.content.as_slice())
    }
}

impl<T: Clone> Clone for List<T> {
    ghost use Rattle.std.specs.List.{AllZip};

    ghost is_clone = { λ v w. AllZip T.is_clone v w };

    fn clone(&self) -> Result<List<T>, AllocError> {
        Ok(List {
            content: self.content.clone()?,
        })
    }
}
