//! The head of the gateway's own replies.

ghost use Rattle.std.specs.Prelude.{◌≡◌, IfOk};
ghost use Rattle.model.specs.Causes.{reply_head};
ghost use Rattle.local_replies.specs.Views.{cause_of};

use h1_reader::ResponseHead;
use hpack_table::Field;
use local_replies::Cause;
use std::alloc::{AllocError, Global};

/// The head of the gateway's own reply, behind which no body comes: a status, and a content-length
/// of 0 (RFC 9110, section 8.6).
pub fn reply_head(alloc: Global, cause: Cause) -> Result<ResponseHead, AllocError>
    ensures { IfOk result (λ head. head ≡ reply_head (cause_of cause)) }
{
    let mut fields = Vec::new(alloc);
    fields.push(Field::of(alloc, b"content-length", b"0")?)?;
    Ok(ResponseHead::new(cause.status(), fields))
}
