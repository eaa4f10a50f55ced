//! The words of a line.

ghost use Rattle.std.specs.Prelude.{◌≡◌, ◌^◌, ◌<◌, ◌∷◌, ℕ, MatchOption, MatchBool};
ghost use Rattle.std.specs.Fmt.{decimal};
ghost use Rattle.dita_doc.specs.Bytes.{Bytes};
ghost use Rattle.dita_doc.specs.Bytes as bytes_spec;
ghost use Rattle.transcript_text.specs.Transcript as transcript_spec;
ghost use Rattle.transcript_text.specs.Words as words_spec;

use dita_doc::{is_name, is_utf8, split_at_first};

/// The first word, and what stands behind its space, if it has one.
pub fn split_word(line: &[u8]) -> (&[u8], Option<&[u8]>)
    ensures { bytes_spec.spaced_parts line.now ≡ result.0.now ∷ words_spec.words_in result.1 }
{
    match split_at_first(line, b' ') {
        Some((word, rest)) => (word, Some(rest)),
        None => (line, None),
    }
}

/// The number below 2^64 whose decimal the word is.
pub fn number64(word: &[u8]) -> Option<u64>
    ensures { result ≡ words_spec.number_of 64 word.now }
{
    if !is_plain(word) {
        return None;
    }
    let text = str::from_utf8(word).ok()?;
    text.parse::<u64>().ok()
}

// Whether a word has no sign, and no zero before its other digits.
fn is_plain(word: &[u8]) -> bool
    ensures { MatchBool result (words_spec.IsPlain word.now) (words_spec.IsPlain word.now → ⊥) }
{
    let Some((first, rest)) = word.split_first() else {
        return false;
    };
    match *first {
        b'+' => false,
        b'0' => rest.is_empty(),
        _ => true,
    }
}

/// The number below 2^32 whose decimal the word is.
pub fn number32(word: &[u8]) -> Option<u32>
    ensures { result ≡ words_spec.number_of 32 word.now }
{
    u32::try_from(number64(word)?).ok()
}

/// Takes this word.
pub fn take_word<'a>(rest: Option<&'a [u8]>, expected: &[u8]) -> Option<Option<&'a [u8]>>
    ensures { MatchOption result
        ((more : words_spec.Words) → words_spec.words_in rest.entry ≡ expected.now ∷ more → ⊥)
        (λ behind. words_spec.words_in rest.entry ≡ expected.now ∷ words_spec.words_in behind) }
{
    let (word, behind) = split_word(rest?);
    if word == expected { Some(behind) } else { None }
}

/// Takes a number below 2^64.
pub fn take_number64(rest: Option<&[u8]>) -> Option<(u64, Option<&[u8]>)>
    ensures { MatchOption result
        ((n : ℕ) (more : words_spec.Words) → n < 2 ^ 64 →
        words_spec.words_in rest.entry ≡ decimal n ∷ more → ⊥)
        (λ taken. (words_spec.words_in rest.entry ≡ decimal taken.0 ∷ words_spec.words_in taken.1)
        × (taken.0 < 2 ^ 64)) }
{
    let (word, behind) = split_word(rest?);
    Some((number64(word)?, behind))
}

/// Takes a number below 2^32.
pub fn take_number32(rest: Option<&[u8]>) -> Option<(u32, Option<&[u8]>)>
    ensures { MatchOption result
        ((n : ℕ) (more : words_spec.Words) → n < 2 ^ 32 →
        words_spec.words_in rest.entry ≡ decimal n ∷ more → ⊥)
        (λ taken. (words_spec.words_in rest.entry ≡ decimal taken.0 ∷ words_spec.words_in taken.1)
        × (taken.0 < 2 ^ 32)) }
{
    let (word, behind) = split_word(rest?);
    Some((number32(word)?, behind))
}

/// Whether a word is a document name, in UTF-8.
pub fn is_name_word(word: &[u8]) -> bool
    ensures { MatchBool result (transcript_spec.IsNameShown word.now)
        (transcript_spec.IsNameShown word.now → ⊥) }
{
    is_name(word) && is_utf8(word)
}

/// Takes a document name.
pub fn take_name(rest: Option<&[u8]>) -> Option<(&[u8], Option<&[u8]>)>
    ensures { MatchOption result
        ((name : Bytes) (more : words_spec.Words) → transcript_spec.IsNameShown name →
        words_spec.words_in rest.entry ≡ name ∷ more → ⊥)
        (λ taken. (words_spec.words_in rest.entry ≡ taken.0.now ∷ words_spec.words_in taken.1)
        × transcript_spec.IsNameShown taken.0.now) }
{
    let (word, behind) = split_word(rest?);
    if is_name_word(word) {
        Some((word, behind))
    } else {
        None
    }
}
