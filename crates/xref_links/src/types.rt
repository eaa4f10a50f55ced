//! The types of an element that matter to its link.

ghost use Rattle.std.specs.Prelude.{◌≡◌, ◌||◌, bytes_eq};

use dita_doc::{Node, split_word};
use doc_elements::tokens_of;

// Which of the types that matter an element has. One without a class that can be read has none.
#[derive(Clone, Copy)]
pub(crate) struct Types {
    pub has_types: bool,
    pub is_topic: bool,
    pub is_image: bool,
    pub is_xref: bool,
    pub is_link: bool,
}

impl Types {
    ghost use Rattle.std.specs.Prelude.{◌≡◌, ◌||◌, ℕ, List, bytes_eq, codes, true};
    ghost use Rattle.doc_elements.specs.Walk as walk_spec;
    ghost use Rattle.xref_links.specs.Types as spec;

    pub(crate) fn of(element: &Node) -> Types
        ensures { (name : List ℕ) → spec.AreTypes (walk_spec.element_of name element.now) result }
    {
        let mut types = Types {
            has_types: false,
            is_topic: false,
            is_image: false,
            is_xref: false,
            is_link: false,
        };
        let mut rest = tokens_of(element);
        while let Some((word, more)) = split_word(rest) {
            types = types.with(word);
            rest = more;
        }
        types
    }

    // Whether an element is read by its href if it names no defined key.
    pub(crate) fn is_linked(self) -> bool
        ensures { result ≡ (self.is_xref || self.is_link) }
    {
        self.is_xref || self.is_link
    }

    // The same with one token more.
    fn with(self, word: &[u8]) -> Types
        ensures any { result.has_types ≡ true }
        ensures topic { result.is_topic
            ≡ (self.is_topic || bytes_eq (codes "topic/topic") word.now) }
        ensures image { result.is_image
            ≡ (self.is_image || bytes_eq (codes "topic/image") word.now) }
        ensures xref { result.is_xref
            ≡ (self.is_xref || bytes_eq (codes "topic/xref") word.now) }
        ensures link { result.is_link
            ≡ (self.is_link || bytes_eq (codes "topic/link") word.now) }
    {
        Types {
            has_types: true,
            is_topic: is_or(self.is_topic, "topic/topic", word),
            is_image: is_or(self.is_image, "topic/image", word),
            is_xref: is_or(self.is_xref, "topic/xref", word),
            is_link: is_or(self.is_link, "topic/link", word),
        }
    }
}

fn is_or(is: bool, token: &str, word: &[u8]) -> bool
    ensures { result ≡ (is || bytes_eq token.now word.now) }
{
    is || token.as_bytes() == word
}
