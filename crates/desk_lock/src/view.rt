//! What a caller of the desk knows.

ghost use Rattle.std.specs.Prelude.{ℕ, List, Option};
ghost use Rattle.std.specs.Borrow.{ftrue};
ghost use Rattle.dita_doc.specs.History.{Entry};
ghost use Rattle.desk_core.specs.Book.{BookData};
ghost use Rattle.desk_core.specs.declared.limits.Limits.{Limits};
ghost use Rattle.facts.specs.Rows.{Claim, RowData};

use std::marker::Model;

/// What a pass or a hand knows of the desk. No value of it is made.
pub struct View {
    /// The session of its entries.
    pub ghost session: { ℕ },
    /// Its parts of the right to know that nothing is missing.
    pub ghost parts: { ℕ },
    /// How much the desk holds.
    pub ghost limits: { Limits },
    /// The history as it saw it last.
    pub ghost seen: { List Entry },
    /// The history of a party that it joined, until the two are compared.
    pub ghost also: { List Entry },
    /// The places of its own entries.
    pub ghost mine: { List ℕ },
    /// The places of the entries of passes that it joined, each with its session.
    pub ghost theirs: { List (ℕ × ℕ) },
    /// The claims that it drew.
    pub ghost drawn: { List Claim },
    /// The rows that it published.
    pub ghost published: { List RowData },
    /// The serials that it released.
    pub ghost released: { List ℕ },
    /// The rows that it knows.
    pub ghost rows: { List RowData },
    /// The claims of others that it met.
    pub ghost met: { List Claim },
    /// The book as it took it, while it has the gate.
    pub ghost held: { Option BookData },
}

impl Model for View {
    ghost also_owns = { λ _. ftrue };
}
