//! What a script asks.

ghost use Rattle.std.specs.Prelude.{◌≤◌, length};
ghost use Rattle.std.specs.List.{All};
ghost use Rattle.script_text.specs.Facts as spec;
ghost use Rattle.script_text.specs.Read as read_spec;
ghost use Rattle.script_text.specs.Script as script_spec;

use dita_doc::{List, Request};

/// The steps of a script. A document that one is to store has the name that it is stored under, and
/// a group has at most 1,000 edits.
#[derive(Drop)]
pub struct Script {
    /// The requests, each behind its session.
    pub steps: List<(u32, Request)>,
    pub ghost few: { length steps ≤ script_spec.request_limit },
    pub ghost sessions: { All spec.IsInSession steps },
    pub ghost size: { spec.steps_size (read_spec.steps_seen steps) ≤ script_spec.script_limit },
    pub ghost utf8: { All spec.HasUtf8 steps } by { Prim.hlevel spec.kept },
    pub ghost few_edits: { All spec.HasFew steps } by { Prim.hlevel spec.kept },
    pub ghost origins: { All spec.IsOwnStep steps } by { Prim.hlevel spec.kept },
}
