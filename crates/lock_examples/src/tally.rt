//! What many claims came to.

use std::alloc::AllocError;

/// How a claim was answered and, if it was granted, ended.
pub enum Ended {
    Had,
    Met,
    Published,
    Released,
}

/// How many claims came to each end; `lost` are those that were not answered.
#[derive(Drop)]
pub struct Tally {
    pub had: u64,
    pub met: u64,
    pub published: u64,
    pub released: u64,
    pub lost: u64,
}

impl Tally {
    pub fn new() -> Tally {
        Tally {
            had: 0,
            met: 0,
            published: 0,
            released: 0,
            lost: 0,
        }
    }

    /// That of work that could not begin.
    pub fn lost() -> Tally {
        Tally {
            lost: 1,
            ..Tally::new()
        }
    }

    /// One claim more.
    pub fn count(&mut self, ended: Result<Ended, AllocError>) {
        let number = match ended {
            Ok(Ended::Had) => &mut self.had,
            Ok(Ended::Met) => &mut self.met,
            Ok(Ended::Published) => &mut self.published,
            Ok(Ended::Released) => &mut self.released,
            Err(_) => &mut self.lost,
        };
        *number = number.saturating_add(1);
    }

    /// How many claims were answered.
    pub fn answered(&self) -> u64 {
        let granted = self.published.saturating_add(self.released);
        self.had.saturating_add(self.met).saturating_add(granted)
    }

    /// The claims of both.
    pub fn plus(&self, other: &Tally) -> Tally {
        Tally {
            had: self.had.saturating_add(other.had),
            met: self.met.saturating_add(other.met),
            published: self.published.saturating_add(other.published),
            released: self.released.saturating_add(other.released),
            lost: self.lost.saturating_add(other.lost),
        }
    }
}
