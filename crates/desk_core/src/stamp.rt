//! Which requests change what is stored.

ghost use Rattle.std.specs.Prelude.{◌≡◌, ◌+◌, ◌<◌, ◌^◌, if◌then◌else◌};
ghost use Rattle.dita_doc.specs.Seen as seen_spec;
ghost use Rattle.desk_core.specs.Book as book_spec;

use dita_doc::Reply;

// Whether a request with this reply changed what is stored.
fn is_change(reply: &Reply) -> bool
    ensures { result ≡ book_spec.is_change (seen_spec.reply_seen reply.now) }
{
    match reply {
        Reply::Stored(_) | Reply::Removed(_) => true,
        Reply::Grouped(edits) => *edits != 0,
        _ => false,
    }
}

// The stamp after a request at a place, by its reply.
pub(crate) fn stamp_after(stamp: u64, place: u64, reply: &Reply) -> u64
    requires { place + 1 < 2 ^ 64 }
    ensures { result ≡ (if book_spec.is_change (seen_spec.reply_seen reply.now) then place + 1
        else stamp) }
{
    if is_change(reply) { place + 1 } else { stamp }
}
