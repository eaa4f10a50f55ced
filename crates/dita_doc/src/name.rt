//! Document names.

ghost use Rattle.std.specs.Prelude.{◌≡◌, IsTrue, IfOk, IfErr, false};
ghost use Rattle.std.specs.List.{list_all};
ghost use Rattle.std.specs.Str.{IsUtf8};
ghost use Rattle.dita_doc.specs.Gives.{OnFault};
ghost use Rattle.dita_doc.specs.Name as spec;

use crate::bytes::split_at_first;
use crate::stop::Stop;
use crate::text::Text;
use std::alloc::{AllocError, Global};
use std::cmp::Ordering;
use std::marker::Model;
use std::sync::Arc;

/// How many bytes the longest name has.
pub const NAME_LIMIT: usize = 255;

/// The answer that a text is no document name.
#[derive(Clone, Copy, PartialEq, Eq)]
pub struct NotName;

/// A document name: its text is shared, so that a clone copies none of it.
#[derive(Debug, Drop)]
pub struct Name {
    text: Arc<Text>,
}

impl Model for Name {
    ghost use Rattle.std.specs.Prelude.{List, ℕ, IsTrue};
    ghost use Rattle.std.specs.Arc.{arc_value};
    ghost use Rattle.dita_doc.specs.Name as name_spec;

    ghost Value = { List ℕ };

    ghost view = { λ n. arc_value n.text };

    ghost invariant = { λ n. IsTrue (name_spec.is_name (arc_value n.text)) };
}

impl Name {
    /// The name that a text is.
    pub fn new(alloc: Global, text: Text) -> Result<Name, AllocError>
        requires { IsTrue (spec.is_name text) }
        ensures { IfOk result (λ name. name ≡ text) }
    {
        Ok(Name {
            text: Arc::new(alloc, text)?,
        })
    }

    /// The name that a text is.
    ///
    /// # Errors
    ///
    /// `NotName` only if the text is no document name, or out of memory.
    pub fn parse(alloc: Global, text: &str) -> Result<Name, Stop<NotName>>
        ensures name { IfOk result (λ name. name ≡ text.now) }
        ensures refused { IfErr result (λ stop. OnFault stop (spec.is_name text.now ≡ false)) }
    {
        if !is_name(text.as_bytes()) {
            return Err(Stop::Fault(NotName));
        }
        Ok(Name::new(alloc, Text::from_str(alloc, text)?)?)
    }

    pub fn as_str(&self) -> &str
        ensures value { result.now ≡ self.now }
        ensures name { IsTrue (spec.is_name self.now) }
    {
        self.text.as_str()
    }

    pub fn as_bytes(&self) -> &[u8]
        ensures value { result.now ≡ self.now }
        ensures name { IsTrue (spec.is_name self.now) }
        ensures utf8 { IsUtf8 self.now }
    {
        self.text.as_bytes()
    }
}

impl Clone for Name {
    ghost use Rattle.std.specs.Prelude.{◌≡◌};

    ghost is_clone = { λ name copy. copy ≡ name };

    fn clone(&self) -> Result<Name, AllocError> {
        Ok(Name {
            text: Arc::try_clone(&self.text)?,
        })
    }
}

impl PartialEq for Name {
    ghost use Rattle.std.specs.Prelude.{bytes_eq};
    ghost use Rattle.std.proofs.Common.{rules};

    ghost eq = { bytes_eq };

    ghost laws = { Prim.search rules };

    fn eq(&self, other: &Self) -> bool {
        self.text.as_bytes() == other.text.as_bytes()
    }
}

impl Eq for Name {
    ghost use Rattle.std.proofs.Common.{rules};

    ghost laws = { Prim.search rules };
}

impl PartialOrd for Name {
    ghost use Rattle.std.specs.Prelude.{Some};
    ghost use Rattle.std.specs.Cmp.Lexicographic.{slice_cmp, texts_po};
    ghost use Rattle.std.specs.Ordering.{nat_cmp};

    ghost partial_cmp = { λ x y. Some (slice_cmp nat_cmp x y) };

    ghost laws = { texts_po };

    fn partial_cmp(&self, other: &Self) -> Option<Ordering> {
        Some(self.cmp(other))
    }
}

/// By the bytes.
impl Ord for Name {
    ghost use Rattle.std.specs.Cmp.Lexicographic.{nat_list_cmp_total, slice_cmp, texts_ties};
    ghost use Rattle.std.specs.Ordering.{nat_cmp};
    ghost use Rattle.std.proofs.Common.{refl};

    ghost cmp = { slice_cmp nat_cmp };

    ghost total = { nat_list_cmp_total };

    ghost matches_partial_cmp = { λ x y. refl };

    ghost matches_eq = { texts_ties };

    fn cmp(&self, other: &Self) -> Ordering {
        // Texts compare many bytes at a time, other slices one by one.
        self.text.as_str().cmp(other.text.as_str())
    }
}

/// Whether bytes are a document name.
pub fn is_name(bytes: &[u8]) -> bool
    ensures { result ≡ spec.is_name bytes.now }
{
    bytes.len() <= NAME_LIMIT
        && has_name_bytes(bytes)
        && has_segments(bytes)
        && bytes != b"-".as_slice()
}

fn has_name_bytes(bytes: &[u8]) -> bool
    ensures { result ≡ list_all spec.is_name_byte bytes.now }
{
    bytes.iter().all(|b| *b >= 33 && *b != 127)
}

fn has_segments(bytes: &[u8]) -> bool
    ensures { result ≡ list_all spec.is_segment (spec.segments_of bytes.now) }
{
    let mut rest = bytes;
    while let Some((segment, more)) = split_at_first(rest, b'/') {
        if !is_segment(segment) {
            return false;
        }
        rest = more;
    }
    is_segment(rest)
}

fn is_segment(segment: &[u8]) -> bool
    ensures { result ≡ spec.is_segment segment.now }
{
    !segment.is_empty() && segment != b".".as_slice() && segment != b"..".as_slice()
}
