//! The words of an attribute's value.

ghost use Rattle.std.specs.Prelude.{◌≡◌, ◌++◌, [], ◌∷◌, bytes_eq, if◌then◌else◌, IfOk, OnErr, OnOk};
ghost use Rattle.std.specs.List.{list_any};
ghost use Rattle.dita_doc.specs.ClassValue as class_value_spec;

use dita_doc::{List, Text, split_word};
use std::alloc::{AllocError, Global};

/// The longest pieces of a value without blanks, in order.
pub fn words_of(alloc: Global, value: &str) -> Result<List<Text>, AllocError>
    ensures { IfOk result (λ words. words ≡ class_value_spec.words_of value.now) }
{
    let mut words = List::new(alloc);
    let mut rest = value.as_bytes();
    while let Some((word, more)) = split_word(rest) {
        words.push(Text::from_bytes(alloc, word)?)?;
        rest = more;
    }
    Ok(words)
}

/// Whether a text stands among others.
pub fn contains_text(texts: &[Text], text: &str) -> bool
    ensures { result ≡ list_any (bytes_eq text.now) texts.now }
{
    texts.iter().any(|own| text == own.as_str())
}

/// Appends a text, unless it stands there.
pub fn push_once(texts: &mut List<Text>, text: Text) -> Result<(), AllocError>
    ensures pushed { OnOk result (texts.new ≡ (if list_any (bytes_eq text) texts.old
        then texts.old else texts.old ++ text ∷ [])) }
    ensures stays { OnErr result (texts.new ≡ texts.old) }
{
    if contains_text(texts.as_slice(), text.as_str()) {
        return Ok(());
    }
    texts.push(text)
}
