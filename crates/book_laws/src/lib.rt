//! Laws of the book, whatever its events were. Each function does nothing: its contract is the law.
#![tactic(auto)]

ghost use Rattle.std.specs.Prelude.{◌≡◌, ◌<◌, ℕ, List, Some, slice_get};
ghost use Rattle.book_laws.specs.Made as made_spec;
ghost use Rattle.dita_doc.specs.History.{sources};
ghost use Rattle.desk_core.specs.Book as book_spec;
ghost use Rattle.desk_core.specs.Invariant as invariant_spec;
ghost use Rattle.desk_core.specs.Steps as steps_spec;
ghost use Rattle.facts.specs.Latest.{Agrees};
ghost use Rattle.facts.specs.Rows.{RowData, Stands};

use facts::Parts;

/// After any events from its opening on, a book keeps the rows that were published but for the
/// first ones, which were dropped. None was dropped unless all together exceed the limit, and with
/// none dropped all are there. What counts as made is what was published.
pub fn kept_rows<P: Parts>()
    ensures made { (entries text bytes : ℕ) (events : List steps_spec.EventDone)
        (book : book_spec.BookData)
        → steps_spec.AreSteps (Agrees P.plan_agrees P.own_agrees) P.is_sound
        (book_spec.new_book entries text bytes) events book
        → made_spec.IsMade (made_spec.rows_published events) book.table }
    ensures all { (entries text bytes : ℕ) (events : List steps_spec.EventDone)
        (book : book_spec.BookData)
        → steps_spec.AreSteps (Agrees P.plan_agrees P.own_agrees) P.is_sound
        (book_spec.new_book entries text bytes) events book
        → book.table.dropped ≡ 0 → book.table.rows ≡ made_spec.rows_published events }
{}

/// After any events from its opening on, a book is in order: its history is legal; its kept rows are
/// sound and agree with the sources of their stamps; no two rows and no running claim have one
/// serial; rows whose plans are judged under one serial have one plan.
pub fn book_in_order<P: Parts>()
    ensures { (entries text bytes : ℕ) (events : List steps_spec.EventDone)
        (book : book_spec.BookData)
        → steps_spec.AreSteps (Agrees P.plan_agrees P.own_agrees) P.is_sound
        (book_spec.new_book entries text bytes) events book
        → invariant_spec.IsInOrder (Agrees P.plan_agrees P.own_agrees) P.is_sound book }
{}

/// If no row was dropped, no part was made again while a row that served was there: of two rows of
/// a key, the first does not agree with the sources of the second if it was published before the
/// second was claimed.
pub fn never_made_twice<P: Parts>()
    ensures { (entries text bytes : ℕ) (events : List steps_spec.EventDone)
        (book : book_spec.BookData) (row later : RowData)
        → steps_spec.AreSteps (Agrees P.plan_agrees P.own_agrees) P.is_sound
        (book_spec.new_book entries text bytes) events book
        → book.table.dropped ≡ 0 → Stands (made_spec.rows_published events) row
        → Stands (made_spec.rows_published events) later → row.fact.key ≡ later.fact.key
        → row.mark < later.serial
        → Agrees P.plan_agrees P.own_agrees row.fact
        (sources book.store.history later.stamp) → ⊥ }
{}

/// Of two rows the one that was published later has the greater rank, whether they are kept or not.
pub fn ranks_rise<P: Parts>()
    ensures { (entries text bytes : ℕ) (events : List steps_spec.EventDone)
        (book : book_spec.BookData) (first second : ℕ) (row later : RowData)
        → steps_spec.AreSteps (Agrees P.plan_agrees P.own_agrees) P.is_sound
        (book_spec.new_book entries text bytes) events book
        → first < second → slice_get (made_spec.rows_published events) first ≡ Some row
        → slice_get (made_spec.rows_published events) second ≡ Some later → row.rank < later.rank }
{}

/// The snapshot that a build gets, after any events, is what was stored after as many entries as its
/// stamp says: so its parts may be claimed.
pub fn snapshots_may_be_claimed<P: Parts>()
    ensures { (entries text bytes : ℕ) (events : List steps_spec.EventDone)
        (book : book_spec.BookData)
        → steps_spec.AreSteps (Agrees P.plan_agrees P.own_agrees) P.is_sound
        (book_spec.new_book entries text bytes) events book
        → steps_spec.IsSnapshotOf book.store.history (book_spec.snapshot_of book.store) }
{}
