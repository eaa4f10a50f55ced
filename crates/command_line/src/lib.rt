//! The words of the program, read by one command of the crate `clap`.
//!
//! What is used above it: `mode` gives the mode that the words name, if the command reads them, and
//! `out_folder` the folder. What words mean is the command's own definition, over the definitions
//! of `clap`.
#![tactic(auto)]

mod arguments;
mod modes;
mod read;

pub use arguments::command;
pub use modes::{Listening, Mode, Project, Workers};
pub use read::{mode, out_folder};
