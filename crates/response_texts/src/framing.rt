//! How the body behind a final head is framed (RFC 9112, section 6.3).

ghost use Rattle.std.specs.Prelude.{◌≡◌, not, true, false, ◌||◌, ◌&&◌, ◌==◌, ◌∷◌, [], List, ℕ, Some, None, codes, bytes_eq, MatchOption, MatchResult};
ghost use Rattle.std.specs.List.{list_all};
ghost use Rattle.std.specs.Str.Parse.{digits_value};
ghost use Rattle.model.specs.Octets.{lower};
ghost use Rattle.model.specs.ResponseHeads.Framing.{Sized};
ghost use Rattle.model.specs.Http1.{values_of};
ghost use Rattle.model.specs.ResponseHeads.{is_length, named_by_connection, framed_by, framing_for};
ghost use Rattle.response_texts.specs.Framings.{framing_view};
ghost use Rattle.response_texts.specs.Heads.{framing_fault};

use crate::fault::ResponseFault;
use crate::fields::count;
use field_rules::fields::is_named;
use field_rules::{is_number, number};
use hpack_table::Field;

/// Where a body ends.
#[derive(Clone, Copy, Drop)]
pub enum Framing {
    /// There is no body.
    Bodiless,
    /// With the last of its chunks.
    Chunks,
    /// Behind so many octets.
    Sized(u64),
    /// Where the server ends the connection.
    UntilEnd,
}

/// The value of the first field of a name.
fn first_value<'a>(fields: &'a [Field], name: &[u8]) -> Option<&'a [u8]>
    ensures { MatchOption result (values_of name.now fields.now ≡ []) (λ value. (others : List (List ℕ))
        × (values_of name.now fields.now ≡ value.now ∷ others)) }
{
    match fields {
        [] => None,
        [field, fields @ ..] => {
            if is_named(field, name) {
                return Some(field.value());
            }
            first_value(fields, name)
        }
    }
}

/// Whether a text is a length of 1 to 18 digits (this project's profile).
fn is_length(text: &[u8]) -> bool
    ensures { result ≡ is_length text.now }
{
    is_number(text) && text.len() <= 18
}

/// Whether the field has another name, or this value.
fn agrees(field: &Field, name: &[u8], value: &[u8]) -> bool
    ensures { result ≡ (not (bytes_eq field.now.name name.now) || bytes_eq value.now field.now.value) }
{
    !is_named(field, name) || value == field.value()
}

/// Whether each field has another name, or this value.
fn all_agree(fields: &[Field], name: &[u8], value: &[u8]) -> bool
    ensures { result ≡ list_all (λ field. not (bytes_eq field.name name.now) || bytes_eq value.now field.value) fields.now }
{
    fields.iter().all(|field| agrees(field, name, value))
}

/// Whether all fields of a name have this value.
fn all_have(fields: &[Field], name: &[u8], value: &[u8]) -> bool
    ensures { result ≡ list_all (bytes_eq value.now) (values_of name.now fields.now) }
{
    all_agree(fields, name, value)
}

/// Whether the only coding is one that is taken, in HTTP/1.0 or HTTP/1.1 (RFC 9112, section 6.1).
fn is_chunked(minor: u8, coding: &[u8]) -> bool
    ensures { result ≡ (minor == 1 && bytes_eq (lower coding.now) (codes "chunked")) }
{
    minor == 1 && coding.eq_ignore_ascii_case(b"chunked")
}

/// What the lines content-length say (RFC 9112, section 6.3), of which one has these digits.
fn sized(fields: &[Field], digits: &[u8]) -> Result<Framing, ResponseFault>
    ensures { MatchResult result (λ framing. (is_length digits.now && list_all (bytes_eq digits.now) (values_of (codes "content-length") fields.now) ≡ true)
        × ((named : List (List ℕ)) → framing_view named framing ≡ Sized (digits_value 10 digits.now)))
        (λ fault. (is_length digits.now && list_all (bytes_eq digits.now) (values_of (codes "content-length") fields.now) ≡ false)
        × (fault ≡ ResponseFault.Length)) }
{
    if !is_length(digits) {
        return Err(ResponseFault::Length);
    }
    if !all_have(fields, b"content-length", digits) {
        return Err(ResponseFault::Length);
    }
    Ok(Framing::Sized(number(digits)))
}

/// What the lines content-length and transfer-encoding say of the body, in HTTP/1.0 or HTTP/1.1
/// (RFC 9112, sections 6.1 to 6.3).
fn framed_by(minor: u8, fields: &[Field]) -> Result<Framing, ResponseFault>
    ensures { MatchResult result (λ framing. framed_by (named_by_connection fields.now) minor (values_of (codes "content-length") fields.now)
        (values_of (codes "transfer-encoding") fields.now) ≡ Some (framing_view (named_by_connection fields.now) framing))
        (λ fault. (framed_by (named_by_connection fields.now) minor (values_of (codes "content-length") fields.now)
        (values_of (codes "transfer-encoding") fields.now) ≡ None) × (fault ≡ framing_fault (values_of (codes "transfer-encoding") fields.now))) }
{
    let coding = first_value(fields, b"transfer-encoding");
    let digits = first_value(fields, b"content-length");
    match coding {
        None => match digits {
            None => Ok(Framing::UntilEnd),
            Some(digits) => sized(fields, digits),
        },
        Some(coding) => match digits {
            None => {
                if count(fields, b"transfer-encoding") == 1 && is_chunked(minor, coding) {
                    return Ok(Framing::Chunks);
                }
                Err(ResponseFault::Coding)
            }
            Some(_) => Err(ResponseFault::Coding),
        },
    }
}

/// How the body is framed behind a final head that answers HEAD or another method (RFC 9112, section 6.3).
pub fn framing_of(
    to_head: bool,
    minor: u8,
    status: u16,
    fields: &[Field],
) -> Result<Framing, ResponseFault>
    ensures { MatchResult result (λ framing. framing_for to_head minor status fields.now ≡ Some (framing_view (named_by_connection fields.now) framing))
        (λ fault. (framing_for to_head minor status fields.now ≡ None) × (fault ≡ framing_fault (values_of (codes "transfer-encoding") fields.now))) }
{
    if status == 204 {
        return Ok(Framing::Bodiless);
    }
    let framing = framed_by(minor, fields)?;
    if to_head || status == 304 {
        return Ok(Framing::Bodiless);
    }
    Ok(framing)
}
