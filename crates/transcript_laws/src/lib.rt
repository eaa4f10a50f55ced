//! The laws of transcripts: a text is that of one transcript alone, and what is read of it is that
//! transcript.
//!
//! A law is a function that does nothing: its contract is the law. Only laws and examples stand on
//! this crate.
#![tactic(auto)]

ghost use Rattle.std.specs.Prelude.{◌≡◌};
ghost use Rattle.transcript_text.specs.Read as read_spec;
ghost use Rattle.transcript_text.specs.Told as told_spec;
ghost use Rattle.transcript_text.specs.Transcript as transcript_spec;
ghost use Rattle.transcript_text.specs.declared.transcript.Transcript.{Transcript};

/// What is read of the text of a valid transcript is that transcript.
pub fn written_is_read()
    // A text is the text of one valid transcript at most.
    ensures once { (s other : transcript_spec.Transcript) →
        transcript_spec.IsTranscript s → transcript_spec.IsTranscript other →
        transcript_spec.transcript_text s ≡ transcript_spec.transcript_text other → s ≡ other }
    ensures read { (s : transcript_spec.Transcript) (transcript : Transcript) →
        transcript_spec.IsTranscript s →
        read_spec.IsRead transcript (transcript_spec.transcript_text s) →
        transcript ≡ told_spec.told s }
{}
