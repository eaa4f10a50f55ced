//! The transcript of a run: its entries to lines, and lines back to what they tell.
//!
//! What is used above it: the contracts of `write_entry` and `read_transcript`. What is written has
//! the form of transcripts, and bytes are read exactly if they have it.
#![tactic(auto)]

mod below;
mod built;
mod head;
mod lines;
mod read;
mod state;
mod transcript;
mod word;
mod write;

pub use built::{BuiltText, PageMark};
pub use lines::{append_lines, count_lines};
pub use read::read_transcript;
pub use transcript::{BadTranscript, EntryText, RowText, Transcript};
pub use write::{write_end, write_entry, write_head};
