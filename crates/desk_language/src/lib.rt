//! Definitions of what the desk takes of the language of documents.
//!
//! What is used above it: `Language`, in whose words builds by workers and faithful transcripts
//! speak of builds and of their parts.
#![tactic(auto)]
