//! What a reader stood on, and had been told, when a reader above it began.

ghost use Rattle.std.specs.Prelude.{[], List};
ghost use Rattle.readers.specs.Setting.{Stand};
ghost use Rattle.readers.specs.Setting as setting_spec;
ghost use Rattle.readers.specs.Told.{Told};

use std::marker::Brand;

/// The start of a reader above another. It has no function, so that a call can pick its members.
pub trait LogStart {
    ghost stand: { Stand };

    ghost told: { List Told };
}

impl LogStart for Brand {
    ghost stand = { setting_spec.no_stand };

    ghost told = { [] };
}
