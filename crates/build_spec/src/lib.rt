//! Definitions of what a build gives.
//!
//! What is used above it: `Built`, in whose words runs, transcripts and facts speak of builds.
#![tactic(auto)]
