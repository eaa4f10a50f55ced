//! Texts in UTF-8, seen by contracts as the list of their bytes.

ghost use Rattle.std.specs.Prelude.{◌≡◌, ◌++◌, ◌==◌, [], length, is_ok, if◌then◌else◌, IfOk};
ghost use Rattle.std.specs.Str.{IsUtf8};

use crate::list::List;
use arrayvec::ArrayString;
use std::alloc::{AllocError, Global};
use std::cmp::Ordering;
use std::hash::{Hash, Hasher};
use std::marker::Model;

/// How many bytes lie in a text itself, so that most names and attributes take no memory.
const SHORT_LIMIT: usize = 16;

/// A growing text. That it is UTF-8 is a fact of the type, so no reader of one tests it again. A
/// text of at most 16 bytes takes no memory, if it was not longer before.
#[derive(Debug, Drop)]
pub struct Text {
    content: Content,
}

// The bytes of a text: in the value itself, or in memory of their own.
#[derive(Debug, Drop)]
enum Content {
    Short(Global, ArrayString<SHORT_LIMIT>),
    Long(String),
}

impl Model for Text {
    ghost use Rattle.std.specs.Prelude.{List, ℕ};
    ghost use Rattle.dita_doc.specs.Text.{content_bytes};

    ghost Value = { List ℕ };

    ghost view = { λ t. content_bytes t.content };
}

impl Text {
    /// The empty text, which takes no memory.
    pub fn new(alloc: Global) -> Self
        ensures { result ≡ [] }
    {
        Text {
            content: Content::Short(alloc, ArrayString::new()),
        }
    }

    /// The same text in memory of its own.
    pub fn from_str(alloc: Global, text: &str) -> Result<Text, AllocError>
        ensures { IfOk result (λ made. made ≡ text.now) }
    {
        let content = match ArrayString::from(text) {
            Ok(short) => Content::Short(alloc, short),
            Err(_) => Content::Long(String::from_str(alloc, text)?),
        };
        Ok(Text { content })
    }

    /// The text of bytes that are proved to be UTF-8: none of them is looked at.
    pub fn from_bytes(alloc: Global, bytes: &[u8]) -> Result<Text, AllocError>
        requires { IsUtf8 bytes.now }
        ensures { IfOk result (λ made. made ≡ bytes.now) }
    {
        Text::from_str(alloc, unsafe { str::from_utf8_unchecked(bytes) })
    }

    /// The same, in the memory that holds the bytes.
    pub fn from_vec(bytes: Vec<u8>) -> Text
        requires { IsUtf8 bytes.items }
        ensures { result ≡ bytes.items }
    {
        Text {
            content: Content::Long(unsafe { String::from_utf8_unchecked(bytes) }),
        }
    }

    #[inline]
    pub fn as_str(&self) -> &str
        ensures { result.now ≡ self.now }
    {
        match &self.content {
            Content::Short(_, short) => short.as_str(),
            Content::Long(long) => long.as_str(),
        }
    }

    #[inline]
    pub fn as_bytes(&self) -> &[u8]
        ensures value { result.now ≡ self.now }
        ensures utf8 { IsUtf8 self.now }
    {
        self.as_str().as_bytes()
    }

    /// Its bytes, in the same memory unless they are few.
    pub fn into_bytes(self) -> Result<List<u8>, AllocError>
        ensures { IfOk result (λ bytes. bytes ≡ self) }
    {
        let Text { content } = self;
        match content {
            Content::Short(alloc, short) => List::from_slice(alloc, short.as_str().as_bytes()),
            Content::Long(long) => Ok(List::from_vec(long.into_bytes())),
        }
    }

    /// How many bytes it has.
    pub fn len(&self) -> usize
        ensures { result ≡ length self.now }
    {
        self.as_bytes().len()
    }

    pub fn is_empty(&self) -> bool
        ensures { result ≡ (length self.now == 0) }
    {
        self.as_bytes().is_empty()
    }

    /// Appends a text. Without memory this one stays as it was.
    pub fn append(&mut self, text: &str) -> Result<(), AllocError>
        ensures { self.new ≡ (if is_ok result then self.old ++ text.now else self.old) }
    {
        match &mut self.content {
            Content::Long(long) => long.push_str(text),
            Content::Short(alloc, short) => {
                if short.try_push_str(text).is_ok() {
                    return Ok(());
                }
                let mut long = String::from_str(*alloc, short.as_str())?;
                long.push_str(text)?;
                self.content = Content::Long(long);
                Ok(())
            }
        }
    }

    /// Appends bytes that are proved to be UTF-8. Without memory the text stays as it was.
    pub fn append_bytes(&mut self, bytes: &[u8]) -> Result<(), AllocError>
        requires { IsUtf8 bytes.now }
        ensures { self.new ≡ (if is_ok result then self.old ++ bytes.now else self.old) }
    {
        self.append(unsafe { str::from_utf8_unchecked(bytes) })
    }
}

/// The same text in memory of its own.
impl Clone for Text {
    ghost use Rattle.std.specs.Prelude.{◌≡◌};

    ghost is_clone = { λ text copy. copy ≡ text };

    fn clone(&self) -> Result<Text, AllocError> {
        let content = match &self.content {
            Content::Short(alloc, short) => Content::Short(*alloc, *short),
            Content::Long(long) => Content::Long(long.clone()?),
        };
        Ok(Text { content })
    }
}

impl PartialEq for Text {
    ghost use Rattle.std.specs.Prelude.{bytes_eq};
    ghost use Rattle.std.proofs.Common.{rules};

    ghost eq = { bytes_eq };

    ghost laws = { Prim.search rules };

    fn eq(&self, other: &Self) -> bool {
        self.as_bytes() == other.as_bytes()
    }
}

impl Eq for Text {
    ghost use Rattle.std.proofs.Common.{rules};

    ghost laws = { Prim.search rules };
}

impl PartialOrd for Text {
    ghost use Rattle.std.specs.Prelude.{Some};
    ghost use Rattle.std.specs.Cmp.Lexicographic.{slice_cmp, texts_po};
    ghost use Rattle.std.specs.Ordering.{nat_cmp};

    ghost partial_cmp = { λ x y. Some (slice_cmp nat_cmp x y) };

    ghost laws = { texts_po };

    fn partial_cmp(&self, other: &Self) -> Option<Ordering> {
        Some(self.cmp(other))
    }
}

/// By the bytes, which is the order of the characters.
impl Ord for Text {
    ghost use Rattle.std.specs.Cmp.Lexicographic.{nat_list_cmp_total, slice_cmp, texts_ties};
    ghost use Rattle.std.specs.Ordering.{nat_cmp};
    ghost use Rattle.std.proofs.Common.{refl};

    ghost cmp = { slice_cmp nat_cmp };

    ghost total = { nat_list_cmp_total };

    ghost matches_partial_cmp = { λ x y. refl };

    ghost matches_eq = { texts_ties };

    fn cmp(&self, other: &Self) -> Ordering {
        self.as_bytes().cmp(&other.as_bytes())
    }
}

/// As its bytes in a string, so that texts are keys of hash maps.
impl Hash for Text {
    ghost use Rattle.std.proofs.Common.{ap};
    ghost use Rattle.std.specs.Cmp.Lexicographic.{bytes_decides};
    ghost use Rattle.std.specs.Hash as fed;

    ghost hash_input = { fed.str };

    ghost respects_eq = { λ x y same. ap fed.str ((bytes_decides x y).0 same) };

    fn hash<H: Hasher>(&self, state: &mut H) {
        self.as_str().hash(state);
    }
}
