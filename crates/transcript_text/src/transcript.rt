//! A transcript as it is read.

use dita_doc::{FactKey, List, Text};

/// An entry of a transcript.
#[derive(Drop)]
pub struct EntryText {
    pub place: u64,
    pub session: u32,
    pub number: u32,
    /// The words of its line behind the numbers.
    pub reply: Text,
    /// The lines below, without `|` and LF.
    pub lines: List<Text>,
}

/// A row of a transcript.
#[derive(Drop)]
pub struct RowText {
    pub serial: u64,
    pub key: FactKey,
    /// The lines below, without `|`, each with its LF.
    pub bytes: List<u8>,
}

/// A transcript: its entries, its rows, and how many entries there are and how many rows were made
/// and dropped.
#[derive(Drop)]
pub struct Transcript {
    pub entries: List<EntryText>,
    pub rows: List<RowText>,
    pub total: (u64, u64, u64),
}

/// Bytes are no transcript. The first line that no transcript has behind the lines before it; if
/// there is none, the last line, since the text ends too early. Lines are counted from 1; the empty
/// text has line 0.
#[derive(Clone, Copy, Debug, PartialEq, Eq)]
pub struct BadTranscript {
    pub line: u32,
}
