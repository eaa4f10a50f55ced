//! Faults of texts, of scripts and of builds.

ghost use Rattle.std.specs.Prelude.{◌≡◌, IfOk};

use crate::list::List;
use crate::name::Name;
use crate::text::Text;
use std::alloc::{AllocError, Global};

/// Why a text is no PYX text. The numbers are those of `docs/RULES.md`.
#[derive(Clone, Copy, Debug, PartialEq, Eq)]
pub enum PyxCode {
    BadLine = 1,
    Entity = 2,
    AttributePlace = 3,
    AttributeTwice = 4,
    Unclosed = 5,
    CloseMismatch = 6,
    NoRoot = 7,
    SecondRoot = 8,
    TextOutside = 9,
    TooDeep = 10,
    TooLong = 11,
    NotUtf8 = 12,
}

impl PyxCode {
    ghost use Rattle.std.specs.Prelude.{◌≡◌};
    ghost use Rattle.dita_doc.specs.Faults as faults_spec;

    /// The code's name.
    pub fn text(self) -> &'static str
        ensures { result.now ≡ faults_spec.pyx_code_text self }
    {
        match self {
            PyxCode::BadLine => "BadLine",
            PyxCode::Entity => "Entity",
            PyxCode::AttributePlace => "AttributePlace",
            PyxCode::AttributeTwice => "AttributeTwice",
            PyxCode::Unclosed => "Unclosed",
            PyxCode::CloseMismatch => "CloseMismatch",
            PyxCode::NoRoot => "NoRoot",
            PyxCode::SecondRoot => "SecondRoot",
            PyxCode::TextOutside => "TextOutside",
            PyxCode::TooDeep => "TooDeep",
            PyxCode::TooLong => "TooLong",
            PyxCode::NotUtf8 => "NotUtf8",
        }
    }
}

/// The first faulty line of a text, counted from 1, and its first fault.
#[derive(Clone, Copy, Debug, PartialEq, Eq)]
pub struct PyxFault {
    pub code: PyxCode,
    pub line: u32,
}

/// A fault that a build finds in its sources, and behind which it goes on. The numbers order the
/// faults of one line.
#[derive(Clone, Copy, Debug, PartialEq, Eq)]
pub enum FaultCode {
    NoClass = 1,
    BadClass = 2,
    BadReference = 3,
    MapMissing = 4,
    MapCycle = 5,
    TopicMissing = 6,
    NotTopic = 7,
    MapConref = 8,
    GroupValue = 9,
    DitavalMissing = 10,
    DitavalTwice = 11,
    BadAction = 12,
    CopyTo = 13,
    Chunk = 14,
    NameChanged = 15,
    BadKeyName = 16,
    BadScopeName = 17,
    KeyUndefined = 18,
    KeyCycle = 19,
    KeyNoText = 20,
    ConrefMissing = 21,
    ConrefType = 22,
    ConrefCycle = 23,
    ConrefDepth = 24,
    RangeEnd = 25,
    PushPlace = 26,
    PushTwice = 27,
    TooManyResolved = 28,
    LinkNoPage = 29,
    PageTooLarge = 30,
    Foreign = 31,
}

impl FaultCode {
    ghost use Rattle.std.specs.Prelude.{◌≡◌};
    ghost use Rattle.dita_doc.specs.Faults as faults_spec;

    /// The code's name.
    pub fn text(self) -> &'static str
        ensures { result.now ≡ faults_spec.fault_code_text self }
    {
        match self {
            FaultCode::NoClass => "NoClass",
            FaultCode::BadClass => "BadClass",
            FaultCode::BadReference => "BadReference",
            FaultCode::MapMissing => "MapMissing",
            FaultCode::MapCycle => "MapCycle",
            FaultCode::TopicMissing => "TopicMissing",
            FaultCode::NotTopic => "NotTopic",
            FaultCode::MapConref => "MapConref",
            FaultCode::GroupValue => "GroupValue",
            FaultCode::DitavalMissing => "DitavalMissing",
            FaultCode::DitavalTwice => "DitavalTwice",
            FaultCode::BadAction => "BadAction",
            FaultCode::CopyTo => "CopyTo",
            FaultCode::Chunk => "Chunk",
            FaultCode::NameChanged => "NameChanged",
            FaultCode::BadKeyName => "BadKeyName",
            FaultCode::BadScopeName => "BadScopeName",
            FaultCode::KeyUndefined => "KeyUndefined",
            FaultCode::KeyCycle => "KeyCycle",
            FaultCode::KeyNoText => "KeyNoText",
            FaultCode::ConrefMissing => "ConrefMissing",
            FaultCode::ConrefType => "ConrefType",
            FaultCode::ConrefCycle => "ConrefCycle",
            FaultCode::ConrefDepth => "ConrefDepth",
            FaultCode::RangeEnd => "RangeEnd",
            FaultCode::PushPlace => "PushPlace",
            FaultCode::PushTwice => "PushTwice",
            FaultCode::TooManyResolved => "TooManyResolved",
            FaultCode::LinkNoPage => "LinkNoPage",
            FaultCode::PageTooLarge => "PageTooLarge",
            FaultCode::Foreign => "Foreign",
        }
    }
}

/// A fault of a build, at the document and line of the element as it was written.
#[derive(PartialEq, Eq, Drop)]
pub struct Fault {
    pub name: Name,
    pub line: u32,
    pub code: FaultCode,
    pub detail: Text,
}

impl Clone for Fault {
    ghost use Rattle.std.specs.Prelude.{◌≡◌};

    ghost is_clone = { λ fault copy. copy ≡ fault };

    fn clone(&self) -> Result<Fault, AllocError> {
        Ok(Fault {
            name: self.name.clone()?,
            line: self.line,
            code: self.code,
            detail: self.detail.clone()?,
        })
    }
}

/// Copies, which share the names of the faults.
pub fn copy_faults(alloc: Global, faults: &[Fault]) -> Result<List<Fault>, AllocError>
    ensures { IfOk result (λ copies. copies ≡ faults.now) }
{
    let mut copies = List::new(alloc);
    for fault in faults {
        copies.push(fault.clone()?)?;
    }
    Ok(copies)
}
