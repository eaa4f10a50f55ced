//! Laws of scripts and of requests. Each function does nothing: its contract is the law.
#![tactic(auto)]

ghost use Rattle.std.specs.Prelude.{◌≡◌, ◌++◌, Ok};
ghost use Rattle.dita_doc.specs.Bytes.{Bytes};
ghost use Rattle.script_laws.specs.Blocks as blocks_spec;
ghost use Rattle.script_laws.specs.Follows as follows_spec;
ghost use Rattle.script_text.specs.Requests as requests_spec;
ghost use Rattle.script_laws.specs.Printable as printable_spec;
ghost use Rattle.script_text.specs.Printed as printed_spec;
ghost use Rattle.script_text.specs.Script as script_spec;

/// The bytes that `read_script` accepts are the texts of lists of blocks, and the steps that it
/// reads are those of the blocks.
pub fn scripts_are_blocks()
    ensures blocks { (bytes : Bytes) (steps : blocks_spec.Steps) →
        script_spec.script_of bytes ≡ Ok steps → blocks_spec.IsScriptOf steps bytes }
    ensures read { (bytes : Bytes) (steps : blocks_spec.Steps) →
        blocks_spec.IsScriptOf steps bytes → script_spec.script_of bytes ≡ Ok steps }
{}

/// What is read of the requests of a session is read again of all that goes on from there: its whole
/// requests are the first ones, and once a line is faulty nothing more is read. So a reader in
/// pieces that told a fault tells it again at each later piece.
pub fn read_requests_stay()
    ensures { (text rest : Bytes) → follows_spec.Follows
        (requests_spec.requests_of text) (requests_spec.requests_of (text ++ rest)) }
{}

/// What requests are printed as is read as these requests, if a script can ask them.
pub fn printed_is_read()
    ensures { (steps : blocks_spec.Steps) → printable_spec.CanPrint steps →
        script_spec.script_of (printed_spec.steps_text steps) ≡ Ok steps }
{}
