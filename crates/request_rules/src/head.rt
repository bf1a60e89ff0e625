//! What a checked head says.

ghost use Rattle.std.specs.Prelude.{◌≡◌, ◌≤◌, ◌<◌, not, true, [], ◌∷◌, ◌++◌, ◌&&◌, IfOk, OnOk, codes, bytes_eq, length, take, filter, get_or};
ghost use Rattle.std.specs.List.{list_all, list_any};
ghost use Rattle.model.specs.Messages.{Field as Meaning};
ghost use Rattle.model.specs.Octets.{is_empty};
ghost use Rattle.model.specs.Http1.{values_of};
ghost use Rattle.model.specs.Http2.{is_pseudo, is_empty_cookie, fields_of, joined_by, LengthFieldHolds};
ghost use Rattle.request_rules.specs.Heads.{parts_of};
ghost use Rattle.request_rules.specs.Sent.{is_sent, is_full_cookie, is_plain};

use crate::{check, rules};
use field_rules::fields;
use hpack_table::Field;
use std::alloc::{AllocError, Global};
use std::marker::Model;

/// A request's head that keeps the rules (RFC 9113, section 8.3): its method, its path, which is empty for CONNECT, its
/// authority, the fields that go on with it, and the length that it declares.
#[derive(Drop)]
pub struct RequestHead {
    method: Vec<u8>,
    path: Vec<u8>,
    authority: Vec<u8>,
    fields: Vec<Field>,
    length: Option<u64>,
}

impl Model for RequestHead {
    ghost use Rattle.request_rules.specs.Heads.{HeadParts};

    ghost Value = { HeadParts };

    ghost view = { λ head. record {
      method = head.method.items;
      path = head.path.items;
      authority = head.authority.items;
      fields = head.fields.items;
      length = head.length;
    } };
}

impl RequestHead {
    /// The parts of a head that keeps the rules.
    pub(crate) fn of(alloc: Global, head: &[Field]) -> Result<Self, AllocError>
        requires { LengthFieldHolds head.now }
        ensures { IfOk result (λ parts. parts ≡ parts_of head.now) }
    {
        Ok(RequestHead {
            method: Vec::from_slice(alloc, fields::first_value(head, b":method"))?,
            path: Vec::from_slice(alloc, fields::first_value(head, b":path"))?,
            authority: Vec::from_slice(alloc, rules::authority(head))?,
            fields: sent_fields(alloc, head)?,
            length: check::declared_length(head),
        })
    }

    /// The method.
    pub fn method(&self) -> &[u8]
        ensures { result.now ≡ self.now.method }
    {
        &self.method
    }

    /// The path with its query, and nothing for CONNECT.
    pub fn path(&self) -> &[u8]
        ensures { result.now ≡ self.now.path }
    {
        &self.path
    }

    /// The authority.
    pub fn authority(&self) -> &[u8]
        ensures { result.now ≡ self.now.authority }
    {
        &self.authority
    }

    /// The fields that go on with the request, in their order: without the host, `te` and the content-length, the
    /// cookies joined into one (RFC 9113, section 8.2.3).
    pub fn fields(&self) -> &[Field]
        ensures { result.now ≡ self.now.fields }
    {
        &self.fields
    }

    /// The declared length of the body in octets, if any.
    pub fn length(&self) -> Option<u64>
        ensures { result ≡ self.now.length }
    {
        self.length
    }
}

/// Whether the field goes on with the request.
fn is_sent(field: &Field) -> bool
    ensures { result ≡ is_sent field.now }
{
    !fields::is_pseudo(field) && !is_told_otherwise(field) && !is_empty_cookie(field)
}

/// Whether the field is told by another part of the request, or goes no further.
fn is_told_otherwise(field: &Field) -> bool
    ensures { result ≡ list_any (bytes_eq field.now.name) (codes "host" ∷ codes "te" ∷ codes "content-length" ∷ []) }
{
    fields::is_named(field, b"host")
        || fields::is_named(field, b"te")
        || fields::is_named(field, b"content-length")
}

/// Whether the field is a cookie that says nothing.
fn is_empty_cookie(field: &Field) -> bool
    ensures { result ≡ is_empty_cookie field.now }
{
    fields::is_named(field, b"cookie") && is_empty(field.value())
}

/// Whether the text is empty.
fn is_empty(text: &[u8]) -> bool
    ensures { result ≡ is_empty text.now }
{
    matches!(text, [])
}

/// Whether the field is a cookie that goes on.
fn is_full_cookie(field: &Field) -> bool
    ensures { result ≡ is_full_cookie field.now }
{
    fields::is_named(field, b"cookie") && is_sent(field)
}

/// Whether the field goes on as it is.
fn is_plain(field: &Field) -> bool
    ensures { result ≡ is_plain field.now }
{
    is_sent(field) && !fields::is_named(field, b"cookie")
}

/// Adds the fields that go on as they are.
fn push_plain(alloc: Global, head: &[Field], fields: &mut Vec<Field>) -> Result<(), AllocError>
    ensures { OnOk result (fields.new.items ≡ fields.old.items ++ filter is_plain head.now) }
{
    for field in head {
        if is_plain(field) {
            fields.push(field.copy(alloc)?)?;
        }
    }
    Ok(())
}

/// The place of the first cookie that goes on, or the head's length.
fn first_cookie(head: &[Field]) -> usize
    ensures within { result ≤ length head.now }
    ensures before { list_all (λ field. not (is_full_cookie field)) (take result head.now) ≡ true }
    ensures there { (d : Meaning) → result < length head.now → is_full_cookie (get_or head.now result d) ≡ true }
{
    for (index, field) in head.iter().enumerate() {
        if is_full_cookie(field) {
            return index;
        }
    }
    head.len()
}

/// The values of the cookies that go on, the first one's first, with `; ` between each two (RFC 9113, section 8.2.3).
fn joined_cookies(alloc: Global, first: &[u8], others: &[Field]) -> Result<Vec<u8>, AllocError>
    ensures { IfOk result (λ joined. joined.items ≡ joined_by (codes "; ") (first.now ∷ values_of (codes "cookie") (filter is_sent others.now))) }
{
    let mut joined = Vec::from_slice(alloc, first)?;
    for field in others {
        if is_full_cookie(field) {
            joined.extend_from_slice(b"; ")?;
            joined.extend_from_slice(field.value())?;
        }
    }
    Ok(joined)
}

/// The fields that go on, the cookies joined at the first one's place.
fn sent_fields(alloc: Global, head: &[Field]) -> Result<Vec<Field>, AllocError>
    ensures { IfOk result (λ fields. fields.items ≡ fields_of head.now) }
{
    let mut fields = Vec::with_capacity(alloc, head.len())?;
    let (front, rest) = head.split_at(first_cookie(head));
    push_plain(alloc, front, &mut fields)?;
    if let [first, others @ ..] = rest {
        let joined = joined_cookies(alloc, first.value(), others)?;
        let cookie = Field::of(alloc, b"cookie", &joined)?;
        fields.push(cookie)?;
        push_plain(alloc, others, &mut fields)?;
    }
    Ok(fields)
}
