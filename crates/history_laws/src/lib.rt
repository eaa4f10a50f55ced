//! Laws of histories, whatever was asked. Each function does nothing: its contract is the law.
#![tactic(auto)]

ghost use Rattle.std.specs.Prelude.{◌≡◌, ◌≢◌, ◌≤◌, ◌++◌, ℕ, Some, None, length, take, slice_get};
ghost use Rattle.dita_doc.specs.Bytes.{Bytes};
ghost use Rattle.dita_doc.specs.Desk as desk_spec;
ghost use Rattle.dita_doc.specs.History as history_spec;
ghost use Rattle.version_store.specs.Entries as entries_spec;

/// The names that are stored rise by their bytes, each stands once, and they are never more than
/// 10,000.
pub fn names_rise()
    ensures order { (history : entries_spec.Entries) (n : ℕ)
        → desk_spec.IsSortedByName (history_spec.sources history n) }
    ensures limit { (history : entries_spec.Entries) (n : ℕ)
        → length (history_spec.sources history n) ≤ desk_spec.stored_limit }
{}

/// A version tells a place: it is 1 more than the place of an entry that put these bytes under this
/// name. That entry is one of the first `n`.
pub fn versions_are_places()
    ensures name { (history : entries_spec.Entries) (n : ℕ) (name : Bytes)
        (stored : desk_spec.Stored)
        → desk_spec.stored_under (history_spec.sources history n) name ≡ Some stored
        → stored.name ≡ name }
    ensures entry { (history : entries_spec.Entries) (n : ℕ) (name : Bytes)
        (stored : desk_spec.Stored)
        → desk_spec.stored_under (history_spec.sources history n) name ≡ Some stored
        → entries_spec.ComesFrom (take n history) stored }
{}

/// A version tells one document of a name: what two times of a history have under one name with one
/// version is the same.
pub fn versions_tell()
    ensures { (history : entries_spec.Entries) (m n : ℕ) (name : Bytes)
        (stored again : desk_spec.Stored)
        → desk_spec.stored_under (history_spec.sources history m) name ≡ Some stored
        → desk_spec.stored_under (history_spec.sources history n) name ≡ Some again
        → stored.version ≡ again.version → stored ≡ again }
{}

/// What was stored after the first entries stays what it is when more follow, and the first entries
/// of a legal history are legal.
pub fn prefixes_stay()
    ensures stored { (history more : entries_spec.Entries) (n : ℕ) → n ≤ length history
        → history_spec.sources (history ++ more) n ≡ history_spec.sources history n }
    ensures legal { (history : entries_spec.Entries) (n : ℕ) → history_spec.IsLegal history
        → history_spec.IsLegal (take n history) }
{}

/// Each reply of a legal history is the desk's over what is stored at its place.
pub fn replies_are_the_desks()
    ensures { (history : entries_spec.Entries) (n : ℕ) (entry : history_spec.Entry)
        → history_spec.IsLegal history → slice_get history n ≡ Some entry
        → entry.reply ≡ desk_spec.reply (history_spec.sources history n) n entry.request }
{}

/// A change of one name changes no other: what is stored is found under its name, what is removed
/// is not found, and each other name has what it had.
pub fn other_names_stay()
    ensures stored { (state : desk_spec.State) (new : desk_spec.Stored)
        → desk_spec.stored_under (desk_spec.with_stored new state) new.name ≡ Some new }
    ensures beside_stored { (state : desk_spec.State) (new : desk_spec.Stored) (name : Bytes)
        → new.name ≢ name
        → desk_spec.stored_under (desk_spec.with_stored new state) name ≡ desk_spec.stored_under state name }
    ensures removed { (state : desk_spec.State) (name : Bytes)
        → desk_spec.stored_under (desk_spec.without_name name state) name ≡ None }
    ensures beside_removed { (state : desk_spec.State) (gone name : Bytes) → gone ≢ name
        → desk_spec.stored_under (desk_spec.without_name gone state) name ≡ desk_spec.stored_under state name }
{}
