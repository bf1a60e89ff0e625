//! Fields, told by their names and values.

use hpack_table::Field;

/// A field's name and value.
pub type Line<'a> = (&'a [u8], &'a [u8]);

/// Whether the fields have these names and values.
pub(crate) fn are_fields(fields: &[Field], wanted: &[Line<'_>]) -> bool {
    for (field, (name, value)) in fields.iter().zip(wanted) {
        if field.name() != *name || field.value() != *value {
            return false;
        }
    }
    fields.len() == wanted.len()
}
