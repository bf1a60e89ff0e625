//! Room for the fields of a head or of trailers.

ghost use Rattle.std.specs.Prelude.{◌≤◌, vec_len, OnOk};

use httparse::spans::{EMPTY_HEADER_SPAN, HeaderSpan};
use std::alloc::{AllocError, Global};

/// Room for the fields of most heads, in less than 1,024 octets.
pub const SOME_FIELDS: usize = 31;

/// Room for the fields of every head or trailer section of at most 16,384 octets, since each takes three or more.
pub const ALL_FIELDS: usize = 5462;

/// Makes room for so many fields, where there isn't as much.
pub fn make_room(alloc: Global, spans: &mut Vec<HeaderSpan>, count: usize) -> Result<(), AllocError>
    ensures { OnOk result (count ≤ vec_len spans.new) }
{
    if spans.len() < count {
        *spans = vec![in alloc; EMPTY_HEADER_SPAN; count]?;
    }
    Ok(())
}
