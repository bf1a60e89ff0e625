//! What comes behind a request's head in another header block.

ghost use Rattle.std.specs.Prelude.{◌≡◌, ◌≤◌, Bool};
ghost use Rattle.model.specs.Tables.{total_size};
ghost use Rattle.model.specs.Tapes.Note.{Fields};
ghost use Rattle.model.specs.Malformed.{has_length};
ghost use Rattle.model.specs.ErrorTable.{is_bad_block};
ghost use Rattle.model.specs.Limits.{largest_fields};
ghost use Rattle.local_replies.specs.Openings.{behind_head};

use hpack_table::Field;
use request_rules::are_trailers;

/// Whether a header block behind a request's head is no trailers that end the request (RFC 9113,
/// section 8.1); `ended` where it ends its stream. The sizes of its fields (RFC 7541, section 4.1)
/// sum to at most 16,384. The head declared this length of the body in octets, if any, and so many
/// octets of it came.
pub fn are_malformed_trailers(
    fields: &[Field],
    ended: bool,
    declared: Option<u64>,
    octets: u64,
) -> bool
    requires { total_size fields.now ≤ largest_fields }
    ensures { (waits : Bool) → result ≡ is_bad_block (behind_head declared octets waits) ended (Fields fields.now) }
{
    !ended || !has_length(declared, octets) || !are_trailers(fields)
}

/// Whether so many octets are as many as were declared, where some were.
fn has_length(declared: Option<u64>, octets: u64) -> bool
    ensures { result ≡ has_length declared octets }
{
    declared.is_none_or(|length| octets == length)
}
