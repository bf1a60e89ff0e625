//! Fields, told by their names and values.

use hpack_table::Field;
use std::alloc::{AllocError, Global};

/// A field's name and value.
pub type Line<'a> = (&'a [u8], &'a [u8]);

/// The name and the value of a field's text: what stands before its first equals sign, and behind that.
pub(crate) fn line_of(text: &[u8]) -> Line<'_> {
    let name = text.split(|octet| *octet == b'=').next().unwrap_or(text);
    let (_, value) = text.split_at(name.len().saturating_add(1).min(text.len()));
    (name, value)
}

/// Puts the field of this name and value behind others.
pub(crate) fn push_field(
    alloc: Global,
    fields: &mut Vec<Field>,
    line: Line<'_>,
) -> Result<(), AllocError> {
    fields.push(Field::of(alloc, line.0, line.1)?)?;
    Ok(())
}

/// Puts the fields of a text behind others. It has bars between them, and nothing where there is none.
pub(crate) fn push_fields(
    alloc: Global,
    fields: &mut Vec<Field>,
    text: &[u8],
) -> Result<(), AllocError> {
    if text.is_empty() {
        return Ok(());
    }
    for part in text.split(|octet| *octet == b'|') {
        push_field(alloc, fields, line_of(part))?;
    }
    Ok(())
}

fn is_field(field: &Field, line: Line<'_>) -> bool {
    field.name() == line.0 && field.value() == line.1
}

/// Whether the fields have these names and values.
pub(crate) fn are_fields(fields: &[Field], wanted: &[Line<'_>]) -> bool {
    for (field, line) in fields.iter().zip(wanted) {
        if !is_field(field, *line) {
            return false;
        }
    }
    fields.len() == wanted.len()
}
