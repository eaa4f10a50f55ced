//! The rule that holds between any two steps.

ghost use Rattle.desk_core.specs.Book.{BookData};
ghost use Rattle.desk_lock.specs.Knows as knows_spec;
ghost use Rattle.desk_lock.specs.Rule as rule_spec;

use crate::view::View;
use atomic_table::TableRule;
use desk_core::{Book, Limits};
use facts::Parts;

/// A book, which contracts see as its history and its table.
pub trait Shown {
    ghost shown: { Self → BookData };
}

/// Contracts see a book as just that.
impl<P: Parts> Shown for Book<P> {
    ghost shown = { λ book. book };
}

/// The order of a desk: there is one past, of which the book and all parties know.
pub struct Order;

impl<B: Shown> TableRule<Option<B>, View, Limits> for Order {
    ghost holds = { λ limits. rule_spec.RuleKept B.shown };

    ghost first = { knows_spec.first_view };
}
