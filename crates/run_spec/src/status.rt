//! How a run ends.

/// The status of a run. Its number is the program's exit status.
#[derive(Clone, Copy, Debug, PartialEq, Eq)]
pub enum Status {
    /// The input was read to its end and the output written whole.
    Done = 0,
    /// The command does not read the words.
    Words = 2,
    /// The source failed.
    ReadFault = 3,
    /// The sink failed; it has the beginning of the output.
    WriteFault = 4,
    /// Out of memory.
    NoMemory = 5,
    /// The script is not well formed; the output says where.
    Script = 6,
    /// The outlet failed; nothing was written to the sink.
    OutletFault = 7,
    /// The door failed: the port could not be opened, or a connection could not be accepted.
    Port = 8,
}

impl Status {
    ghost use Rattle.std.specs.Prelude.{◌≡◌};
    ghost use Rattle.run_spec.specs.Status as status_spec;

    /// The program's exit status.
    pub fn number(self) -> u8
        ensures { result ≡ status_spec.exit_status self }
    {
        self as u8
    }
}
