//! The laws of faithful transcripts. A law is a function that does nothing: its contract is the law.
//! Nothing stands on this crate.
#![tactic(auto)]

ghost use Rattle.std.specs.Prelude.{◌≡◌, All, map};
ghost use Rattle.dita_doc.specs.Bytes.{Bytes};
ghost use Rattle.faithful_laws.specs.OneHistory as one_history_spec;
ghost use Rattle.faithful_laws.specs.PagesRead as pages_read_spec;
ghost use Rattle.faithful_laws.specs.ReadBack as read_back_spec;
ghost use Rattle.run_spec.specs.Faithful as faithful_spec;
ghost use Rattle.run_spec.specs.HistoryTold as history_told_spec;
ghost use Rattle.run_spec.specs.Language.{dita};

/// A faithful text speaks for itself: who reads it has no choice.
pub fn read_as_told()
    // It is read as what its own transcript tells, and as nothing else.
    ensures read { (steps : one_history_spec.Steps) (text : Bytes)
        (is : faithful_spec.IsFaithful dita steps text) →
        read_back_spec.IsReadAs text is.transcript }
    // Two proofs that it is faithful speak of one transcript, even if they are of two scripts.
    ensures transcript { (steps others : one_history_spec.Steps) (text : Bytes)
        (first : faithful_spec.IsFaithful dita steps text)
        (second : faithful_spec.IsFaithful dita others text) →
        first.transcript ≡ second.transcript }
    // Of one script they speak of one history.
    ensures history { (steps : one_history_spec.Steps) (text : Bytes)
        (first second : faithful_spec.IsFaithful dita steps text) →
        history_told_spec.history_told steps first.transcript.entries
        ≡ history_told_spec.history_told steps second.transcript.entries }
    // So the bytes of a script and of a text have one history.
    ensures bytes { (script text : Bytes) (first second : faithful_spec.IsFaithfulTo script text) →
        history_told_spec.history_told first.steps first.faithful.transcript.entries
        ≡ history_told_spec.history_told second.steps second.faithful.transcript.entries }
    // The numbers of its entries alone make its history: two texts with the same numbers in the
    // same order tell the same.
    ensures numbers { (steps : one_history_spec.Steps) (text other : Bytes)
        (first : faithful_spec.IsFaithful dita steps text)
        (second : faithful_spec.IsFaithful dita steps other) →
        one_history_spec.numbers first.transcript.entries
        ≡ one_history_spec.numbers second.transcript.entries →
        history_told_spec.history_told steps first.transcript.entries
        ≡ history_told_spec.history_told steps second.transcript.entries }
{}

/// A faithful transcript tells one legal history: as many entries as the script has requests, each
/// answered over what the entries before it have stored.
pub fn one_history()
    ensures { (steps : one_history_spec.Steps) (text : Bytes)
        (is : faithful_spec.IsFaithful dita steps text) →
        one_history_spec.TellsOneHistory steps is.transcript.entries }
{}

/// In the history that a faithful transcript tells each request of the script stands once, with its
/// session, and the requests of one session stand in its order.
pub fn sessions_in_order()
    ensures { (steps : one_history_spec.Steps) (text : Bytes)
        (is : faithful_spec.IsFaithful dita steps text) →
        one_history_spec.KeepsOrder steps
        (history_told_spec.history_told steps is.transcript.entries) }
{}

/// Each page line of a faithful transcript names a row line. The page lines of a build, read with
/// their row lines, are the pages of the clean build over what is stored at its place: their names,
/// their parts and their bytes.
pub fn pages_in_rows()
    ensures { (steps : one_history_spec.Steps) (text : Bytes)
        (is : faithful_spec.IsFaithful dita steps text) →
        All (pages_read_spec.ReadsPages is.transcript.rows)
        (history_told_spec.moments_of steps is.transcript.entries) }
{}

/// Two faithful transcripts that tell one history differ in the serials of their rows, in the order
/// and the number of their row lines, and in how many rows their ends count alone. Each build has the
/// same pages in both, byte for byte.
pub fn one_text_but_rows()
    ensures { (steps : one_history_spec.Steps) (text other : Bytes)
        (first : faithful_spec.IsFaithful dita steps text)
        (second : faithful_spec.IsFaithful dita steps other) →
        history_told_spec.history_told steps first.transcript.entries
        ≡ history_told_spec.history_told steps second.transcript.entries →
        pages_read_spec.DifferInRows first.transcript second.transcript }
{}
