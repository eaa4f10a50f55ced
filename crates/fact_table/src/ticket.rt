//! What a claim is answered.

ghost use Rattle.std.specs.Prelude.{◌≡◌};

use dita_doc::FactKey;
use facts::Row;
use std::marker::Model;

/// A claim that runs. It is spent by a publish or a release.
#[derive(Drop)]
pub struct Ticket {
    pub(crate) serial: u64,
    pub(crate) key: FactKey,
    pub(crate) stamp: u64,
}

impl Model for Ticket {
    ghost use Rattle.facts.specs.Rows as rows_spec;

    ghost Value = { rows_spec.Claim };

    ghost view = { λ ticket. record {
      serial = ticket.serial;
      key = ticket.key;
      stamp = ticket.stamp;
    } };
}

impl Ticket {
    /// The number of the claim, drawn when it was made.
    pub fn serial(&self) -> u64
        ensures { result ≡ self.now.serial }
    {
        self.serial
    }
}

/// What a claim is answered.
#[derive(Drop)]
pub enum Claimed {
    /// The last published of the rows that agree.
    Have(Row),
    /// The claim of this serial runs for the same part and the same snapshot.
    Taken(u64),
    /// The part is to be made.
    Yours(Ticket),
}
