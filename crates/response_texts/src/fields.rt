//! What the fields of a response's head say.

ghost use Rattle.std.specs.Prelude.{◌≡◌, ◌≤◌, ◌++◌, not, ◌&&◌, ◌||◌, ◌==◌, [], ◌∷◌, codes, bytes_eq, filter, length, IfOk, OnOk};
ghost use Rattle.std.specs.List.{list_any};
ghost use Rattle.model.specs.Http1.{values_of, without};
ghost use Rattle.model.specs.Http2.{names_not_in_trailers};
ghost use Rattle.response_texts.specs.HeadSizes.{field_octets};
ghost use Rattle.model.specs.ResponseHeads.{names_in, named_by_connection, names_of_connection, never_has_body, without_framing, passed, with_one};

use crate::octets;
use field_rules::fields::{is_kept_from_trailers, is_named};
use hpack_table::Field;
use std::alloc::{AllocError, Global};

/// Whether the field is a Connection that names this name.
fn names(field: &Field, name: &[u8]) -> bool
    ensures { result ≡ (bytes_eq field.now.name (codes "connection") && list_any (bytes_eq name.now) (names_in field.now.value)) }
{
    is_named(field, b"connection") && octets::names(field.value(), name)
}

/// Whether some field is a Connection that names this name.
fn some_names(fields: &[Field], name: &[u8]) -> bool
    ensures { result ≡ list_any (λ field. bytes_eq field.name (codes "connection") && list_any (bytes_eq name.now) (names_in field.value)) fields.now }
{
    fields.iter().any(|field| names(field, name))
}

/// Whether some field Connection names this name (RFC 9110, section 7.6.1).
fn is_named_by_connection(fields: &[Field], name: &[u8]) -> bool
    ensures { result ≡ list_any (bytes_eq name.now) (named_by_connection fields.now) }
{
    some_names(fields, name)
}

/// Whether the field is one of a connection (RFC 9113, section 8.2.2).
fn is_of_connection(field: &Field) -> bool
    ensures { result ≡ list_any (bytes_eq field.now.name) names_of_connection }
{
    is_named(field, b"te")
        || is_named(field, b"connection")
        || is_named(field, b"proxy-connection")
        || is_named(field, b"keep-alive")
        || is_named(field, b"transfer-encoding")
        || is_named(field, b"upgrade")
}

/// Whether the field frames a body.
fn is_of_framing(field: &Field) -> bool
    ensures { result ≡ list_any (bytes_eq field.now.name) (codes "content-length" ∷ codes "transfer-encoding" ∷ []) }
{
    is_named(field, b"content-length") || is_named(field, b"transfer-encoding")
}

/// Whether there is never a body behind a head with this status (RFC 9110, sections 15.2 and 15.3.5).
fn never_has_body(status: u16) -> bool
    ensures { result ≡ never_has_body status }
{
    status < 200 || status == 204
}

/// Whether a field is passed back, by the fields Connection of its head, or by more of them.
fn is_passed(connections: &[Field], field: &Field) -> bool
    ensures { result ≡ not (list_any (bytes_eq field.now.name) (names_of_connection ++ named_by_connection connections.now)) }
{
    !is_of_connection(field) && !is_named_by_connection(connections, field.name())
}

/// The fields Connection among fields.
pub fn connections(alloc: Global, fields: &[Field]) -> Result<Vec<Field>, AllocError>
    ensures names { IfOk result (λ found. named_by_connection found.items ≡ named_by_connection fields.now) }
    ensures few { IfOk result (λ found. field_octets found.items ≤ field_octets fields.now) }
{
    let mut found = Vec::new(alloc);
    for field in fields {
        if is_named(field, b"connection") {
            found.push(field.copy(alloc)?)?;
        }
    }
    Ok(found)
}

/// Whether a head of this version with these fields Connection lets its connection stay open (RFC
/// 9112, sections 9.3 and 9.6).
pub fn leave_open(minor: u8, connections: &[Field]) -> bool
    ensures { result ≡ (minor == 1 && not (list_any (bytes_eq (codes "close")) (named_by_connection connections.now))) }
{
    minor == 1 && !is_named_by_connection(connections, b"close")
}

/// Drops the fields that aren't passed back, by the fields Connection of their head.
fn keep_passed(connections: &[Field], fields: &mut Vec<Field>)
    ensures { fields.new.items ≡ passed connections.now fields.old.items }
{
    fields.retain(|field| is_passed(connections, field));
}

/// Whether the field doesn't frame a body.
fn is_unframing(field: &Field) -> bool
    ensures { result ≡ not (list_any (bytes_eq field.now.name) (codes "content-length" ∷ codes "transfer-encoding" ∷ [])) }
{
    !is_of_framing(field)
}

/// Drops the fields that frame a body.
fn keep_unframing(fields: &mut Vec<Field>)
    ensures { fields.new.items ≡ without (codes "content-length" ∷ codes "transfer-encoding" ∷ []) fields.old.items }
{
    fields.retain(|field| is_unframing(field));
}

/// How many fields have this name.
#[tactic(auto, using(crate::proofs::FieldLists::count_values))]
pub fn count(fields: &[Field], name: &[u8]) -> usize
    ensures { result ≡ length (values_of name.now fields.now) }
{
    fields.iter().filter(|field| is_named(field, name)).count()
}

/// Whether the field is no second content-length.
fn is_kept(field: &Field, found: bool) -> bool
    ensures { result ≡ not (bytes_eq field.now.name (codes "content-length") && found) }
{
    !(is_named(field, b"content-length") && found)
}

/// Whether a content-length was found, with this field.
fn is_found(field: &Field, found: bool) -> bool
    ensures { result ≡ (found || bytes_eq field.now.name (codes "content-length")) }
{
    found || is_named(field, b"content-length")
}

/// Adds the fields with the first content-length alone.
fn push_with_one_length(
    alloc: Global,
    fields: &[Field],
    out: &mut Vec<Field>,
) -> Result<(), AllocError>
    ensures { OnOk result (out.new.items ≡ out.old.items ++ with_one (codes "content-length") fields.now) }
{
    let mut found = false;
    for field in fields {
        if is_kept(field, found) {
            out.push(field.copy(alloc)?)?;
        }
        found = is_found(field, found);
    }
    Ok(())
}

/// The fields without what framing leaves no meaning (RFC 9112, sections 6.1 to 6.3).
fn without_framing(alloc: Global, status: u16, fields: Vec<Field>) -> Result<Vec<Field>, AllocError>
    ensures { IfOk result (λ kept. kept.items ≡ without_framing status fields.items) }
{
    let mut fields = fields;
    if never_has_body(status) {
        keep_unframing(&mut fields);
        return Ok(fields);
    }
    if count(&fields, b"content-length") <= 1 {
        return Ok(fields);
    }
    let mut kept = Vec::new(alloc);
    push_with_one_length(alloc, &fields, &mut kept)?;
    Ok(kept)
}

/// The fields of a head that are passed back (RFC 9110, section 7.6.1), by those of them that are Connection.
pub fn passed_back(
    alloc: Global,
    status: u16,
    fields: Vec<Field>,
    connections: &[Field],
) -> Result<Vec<Field>, AllocError>
    requires { named_by_connection connections.now ≡ named_by_connection fields.items }
    ensures { IfOk result (λ kept. kept.items ≡ passed fields.items (without_framing status fields.items)) }
{
    let mut kept = without_framing(alloc, status, fields)?;
    keep_passed(connections, &mut kept);
    Ok(kept)
}

/// Whether a field of trailers is passed back, by the fields Connection of their head and their own.
fn is_trailing(connections: &[Field], own: &[Field], field: &Field) -> bool
    ensures { result ≡ not (list_any (bytes_eq field.now.name) (names_not_in_trailers ++ names_of_connection ++ named_by_connection connections.now
        ++ named_by_connection own.now)) }
{
    !is_kept_from_trailers(field)
        && !is_of_connection(field)
        && !is_named_by_connection(connections, field.name())
        && !is_named_by_connection(own, field.name())
}

/// Drops the fields that aren't passed back, by the fields Connection of the head and those of the trailers.
fn keep_trailing(connections: &[Field], own: &[Field], fields: &mut Vec<Field>)
    ensures { fields.new.items ≡ without (names_not_in_trailers ++ names_of_connection ++ named_by_connection connections.now
        ++ named_by_connection own.now) fields.old.items }
{
    fields.retain(|field| is_trailing(connections, own, field));
}

/// The fields of trailers that are passed back, by the fields Connection of their head.
pub fn trailing(
    alloc: Global,
    connections_of_head: &[Field],
    fields: Vec<Field>,
) -> Result<Vec<Field>, AllocError>
    ensures { IfOk result (λ kept. kept.items ≡ without (names_not_in_trailers ++ names_of_connection ++ named_by_connection connections_of_head.now
        ++ named_by_connection fields.items) fields.items) }
{
    let own = connections(alloc, &fields)?;
    let mut kept = fields;
    keep_trailing(connections_of_head, &own, &mut kept);
    Ok(kept)
}
