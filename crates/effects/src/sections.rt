//! The fields of a response's head, as they're encoded.

ghost use Rattle.std.specs.Prelude.{◌≡◌, IfOk};
ghost use Rattle.std.specs.List.{All};
ghost use Rattle.model.specs.Deliveries.{IsSection};
ghost use Rattle.header_blocks.specs.Chosen.{HasShortStrings};
ghost use Rattle.effects.specs.Sections.{section_of};

use h1_reader::ResponseHead;
use header_blocks::Field;
use std::alloc::{AllocError, Global};

/// The field section of a head (RFC 9113, section 8.3.2): `:status` in three digits, and the head's
/// fields, which aren't copied. Each is one that an encoder takes. An `Err` says that memory was
/// refused.
pub fn section_of(alloc: Global, head: ResponseHead) -> Result<Vec<Field>, AllocError>
    ensures fields { IfOk result (λ fields. fields.items ≡ section_of head) }
    ensures section { IfOk result (λ fields. IsSection fields.items head) }
    ensures short { IfOk result (λ fields. All HasShortStrings fields.items) }
{
    let status = head.status();
    let digits = [
        48 + (status / 100 % 10) as u8,
        48 + (status / 10 % 10) as u8,
        48 + (status % 10) as u8,
    ];
    let status = Field::of(alloc, b":status", &digits)?;
    let mut fields = head.into_fields();
    fields.insert(0, status)?;
    Ok(fields)
}
