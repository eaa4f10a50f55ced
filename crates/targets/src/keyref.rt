//! Key references.

ghost use Rattle.std.specs.Prelude.{◌≡◌};
ghost use Rattle.std.specs.Option.{option_copied};
ghost use Rattle.map_spec.specs.Keys as keys_spec;

use dita_doc::split_text_at_first;

/// The key of a key reference, and the id of an element that stands behind its first `/`. An empty
/// id is none.
pub fn split_key(keyref: &str) -> (&str, Option<&str>)
    ensures key { result.0.now ≡ keys_spec.key_of keyref.now }
    ensures id { option_copied result.1 ≡ keys_spec.id_of_key keyref.now }
{
    match split_text_at_first(keyref, b'/') {
        None => (keyref, None),
        Some((key, "")) => (key, None),
        Some((key, id)) => (key, Some(id)),
    }
}
