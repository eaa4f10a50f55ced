//! Why bytes are no script.

use dita_doc::List;
use std::alloc::{AllocError, Global};

/// Why bytes are no script. The numbers are those of `docs/RULES.md`.
#[derive(Clone, Copy, Debug, PartialEq, Eq)]
pub enum ScriptCode {
    BadCommand = 1,
    BadNumber = 2,
    BadName = 3,
    NoEnd = 4,
    TooManySessions = 5,
    TooManyRequests = 6,
    TooLong = 7,
    NotUtf8 = 8,
    TooManyEdits = 9,
}

impl ScriptCode {
    ghost use Rattle.std.specs.Prelude.{◌≡◌};
    ghost use Rattle.script_text.specs.Faults as faults_spec;

    /// The code's name.
    pub fn text(self) -> &'static str
        ensures { result.now ≡ faults_spec.script_code_text self }
    {
        match self {
            ScriptCode::BadCommand => "BadCommand",
            ScriptCode::BadNumber => "BadNumber",
            ScriptCode::BadName => "BadName",
            ScriptCode::NoEnd => "NoEnd",
            ScriptCode::TooManySessions => "TooManySessions",
            ScriptCode::TooManyRequests => "TooManyRequests",
            ScriptCode::TooLong => "TooLong",
            ScriptCode::NotUtf8 => "NotUtf8",
            ScriptCode::TooManyEdits => "TooManyEdits",
        }
    }
}

/// The first faulty line of a script, counted from 1, and its first fault.
#[derive(Clone, Copy, Debug, PartialEq, Eq)]
pub struct ScriptFault {
    pub code: ScriptCode,
    pub line: u32,
}

impl ScriptFault {
    ghost use Rattle.std.specs.Prelude.{◌≡◌, IfOk};
    ghost use Rattle.script_text.specs.Faults as faults_spec;

    /// The line that tells why bytes were rejected: `script`, the code's name and the number of the line.
    pub fn to_line(self, alloc: Global) -> Result<List<u8>, AllocError>
        ensures { IfOk result (λ line. line ≡ faults_spec.rejection_line self) }
    {
        let code = self.code.text();
        let line = self.line;
        let text = format!(in alloc; "script {code} {line}\n")?;
        Ok(List::from_vec(text.into_bytes()))
    }
}
