//! Lines of a head.

ghost use Rattle.std.specs.Prelude.{◌≡◌, ◌++◌, OnOk, length};
ghost use Rattle.model.specs.Http1Text.{line_text, lines_text, framing_of, closing};

use crate::numbers;
use hpack_table::Field;
use std::alloc::AllocError;

/// Adds a field's line (RFC 9112, section 5).
pub fn push_line(name: &[u8], value: &[u8], out: &mut Vec<u8>) -> Result<(), AllocError>
    ensures { OnOk result (out.new.items ≡ out.old.items ++ line_text (record { name = name.now; value = value.now })) }
{
    out.extend_from_slice(name)?;
    out.extend_from_slice(b": ")?;
    out.extend_from_slice(value)?;
    out.extend_from_slice(b"\r\n")?;
    Ok(())
}

/// Adds the lines of fields, in their order.
pub fn push_lines(fields: &[Field], out: &mut Vec<u8>) -> Result<(), AllocError>
    ensures { OnOk result (out.new.items ≡ out.old.items ++ lines_text fields.now) }
{
    for field in fields {
        push_line(field.name(), field.value(), out)?;
    }
    Ok(())
}

/// Adds the line that says how the body is framed, if there is one (RFC 9112, section 6).
pub fn push_framing(length: Option<u64>, ended: bool, out: &mut Vec<u8>) -> Result<(), AllocError>
    ensures { OnOk result (out.new.items ≡ out.old.items ++ lines_text (framing_of length ended)) }
{
    let Some(length) = length else {
        if ended {
            return Ok(());
        }
        return push_line(b"transfer-encoding", b"chunked", out);
    };
    out.extend_from_slice(b"content-length: ")?;
    numbers::push_decimal(length, out)?;
    out.extend_from_slice(b"\r\n")?;
    Ok(())
}

/// Adds the line that says that no other request is sent on the connection, unless that is kept
/// (RFC 9112, section 9.6).
pub fn push_closing(keep: bool, out: &mut Vec<u8>) -> Result<(), AllocError>
    ensures { OnOk result (out.new.items ≡ out.old.items ++ lines_text (closing keep)) }
{
    if keep {
        return Ok(());
    }
    push_line(b"connection", b"close", out)
}
