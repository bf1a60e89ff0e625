//! The trailers that go on with a request.

ghost use Rattle.std.specs.Prelude.{◌≡◌, ◌++◌, filter, OnOk, IfOk};
ghost use Rattle.model.specs.Http2.{passed_trailers};
ghost use Rattle.request_rules.specs.Sent.{is_passed};

use field_rules::fields;
use hpack_table::Field;
use std::alloc::{AllocError, Global};

/// Whether trailers pass the field on.
fn is_passed(field: &Field) -> bool
    ensures { result ≡ is_passed field.now }
{
    !fields::is_kept_from_trailers(field)
}

/// Adds the fields that are passed on.
fn push_passed(alloc: Global, trailers: &[Field], passed: &mut Vec<Field>) -> Result<(), AllocError>
    ensures { OnOk result (passed.new.items ≡ passed.old.items ++ filter is_passed trailers.now) }
{
    for field in trailers {
        if is_passed(field) {
            passed.push(field.copy(alloc)?)?;
        }
    }
    Ok(())
}

/// The trailers that are passed on, in their order.
pub fn passed(alloc: Global, trailers: &[Field]) -> Result<Vec<Field>, AllocError>
    ensures { IfOk result (λ fields. fields.items ≡ passed_trailers trailers.now) }
{
    let mut fields = Vec::new(alloc);
    push_passed(alloc, trailers, &mut fields)?;
    Ok(fields)
}
