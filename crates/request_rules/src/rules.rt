//! The rules of a head, each as a test.

ghost use Rattle.std.specs.Prelude.{◌≡◌, ◌≤◌, [], true, false, MatchBool, if◌then◌else◌, length, codes};
ghost use Rattle.model.specs.Http1.{values_of};
ghost use Rattle.model.specs.Http2.{pseudo_fields, is_connect, authority_of, PseudoFieldsHold, NamesHold, ValuesHold};
ghost use Rattle.model.specs.Http2.{HasNoConnectionField, TeHolds, MethodHolds, SchemeHolds, PathHolds, AuthorityHolds};
ghost use Rattle.model.specs.Http2.{LengthFieldHolds, Has};

use field_rules::{fields, is_authority, is_token};
use hpack_table::Field;

/// Whether the method is CONNECT.
fn is_connect(head: &[Field]) -> bool
    ensures { result ≡ is_connect head.now }
{
    fields::first_value(head, b":method") == b"CONNECT".as_slice()
}

/// How many schemes and paths a head has.
fn parts_of(connect: bool) -> usize
    ensures { result ≡ (if connect then 0 else 1) }
{
    if connect { 0 } else { 1 }
}

/// Whether a name is there so many times.
fn has(head: &[Field], name: &[u8], count: usize) -> bool
    ensures { MatchBool result (Has count name.now head.now) (Has count name.now head.now → ⊥) }
{
    fields::count(head, name) == count
}

/// Whether a name is there at most once.
fn has_at_most_one(head: &[Field], name: &[u8]) -> bool
    ensures { MatchBool result (length (values_of name.now head.now) ≤ 1) (length (values_of name.now head.now) ≤ 1 → ⊥) }
{
    fields::count(head, name) <= 1
}

/// Whether the names hold.
pub fn names_hold(head: &[Field]) -> bool
    ensures { MatchBool result (NamesHold head.now) (NamesHold head.now → ⊥) }
{
    fields::names_hold(head)
}

/// Whether the values hold.
pub fn values_hold(head: &[Field]) -> bool
    ensures { MatchBool result (ValuesHold head.now) (ValuesHold head.now → ⊥) }
{
    fields::values_hold(head)
}

/// Whether no field speaks of the connection.
pub fn has_no_connection_field(head: &[Field]) -> bool
    ensures { MatchBool result (HasNoConnectionField head.now) (HasNoConnectionField head.now → ⊥) }
{
    fields::has_no_connection_field(head)
}

/// Whether each `te` holds.
pub fn te_holds(head: &[Field]) -> bool
    ensures { MatchBool result (TeHolds head.now) (TeHolds head.now → ⊥) }
{
    fields::te_holds(head)
}

/// Whether the method is a token.
pub fn method_holds(head: &[Field]) -> bool
    ensures { MatchBool result (MethodHolds head.now) (MethodHolds head.now → ⊥) }
{
    is_token(fields::first_value(head, b":method"))
}

/// Whether each scheme holds.
pub fn scheme_holds(head: &[Field]) -> bool
    ensures { MatchBool result (SchemeHolds head.now) (SchemeHolds head.now → ⊥) }
{
    fields::scheme_holds(head)
}

/// Whether each path holds.
pub fn path_holds(head: &[Field]) -> bool
    ensures { MatchBool result (PathHolds head.now) (PathHolds head.now → ⊥) }
{
    fields::path_holds(head, fields::first_value(head, b":method"))
}

/// Whether the content-length holds.
pub fn length_field_holds(head: &[Field]) -> bool
    ensures { MatchBool result (LengthFieldHolds head.now) (LengthFieldHolds head.now → ⊥) }
{
    if !has_at_most_one(head, b"content-length") {
        return false;
    }
    fields::lengths_hold(head)
}

/// The authority: the pseudo-field's, else the host's.
pub fn authority(head: &[Field]) -> &[u8]
    ensures { result.now ≡ authority_of head.now }
{
    if fields::count(head, b":authority") == 0 {
        fields::first_value(head, b"host")
    } else {
        fields::first_value(head, b":authority")
    }
}

/// Whether the authority holds.
pub fn authority_holds(head: &[Field]) -> bool
    ensures { MatchBool result (AuthorityHolds head.now) (AuthorityHolds head.now → ⊥) }
{
    let authority = authority(head);
    if !has_at_most_one(head, b"host") {
        return false;
    }
    if !is_authority(authority) {
        return false;
    }
    if !fields::are_alike(head, b":authority", authority) {
        return false;
    }
    fields::are_alike(head, b"host", authority)
}

/// Whether the authority's pseudo-field is there as often as it may.
fn authority_count_holds(head: &[Field], connect: bool) -> bool
    ensures { MatchBool result ((length (values_of (codes ":authority") head.now) ≤ 1)
        × (connect ≡ true → Has 1 (codes ":authority") head.now)) ((length (values_of (codes ":authority") head.now) ≤ 1)
        × (connect ≡ true → Has 1 (codes ":authority") head.now) → ⊥) }
{
    let count = fields::count(head, b":authority");
    if connect { count == 1 } else { count <= 1 }
}

/// Whether the pseudo-fields hold.
pub fn pseudo_fields_hold(head: &[Field]) -> bool
    ensures { MatchBool result (PseudoFieldsHold head.now) (PseudoFieldsHold head.now → ⊥) }
{
    let connect = is_connect(head);
    let parts = parts_of(connect);
    if !fields::stand_first(head) {
        return false;
    }
    if !fields::are_known(head) {
        return false;
    }
    if !has(head, b":method", 1) {
        return false;
    }
    if !has(head, b":scheme", parts) {
        return false;
    }
    if !has(head, b":path", parts) {
        return false;
    }
    authority_count_holds(head, connect)
}

/// Whether no field is a pseudo-field.
pub fn has_no_pseudo_field(fields: &[Field]) -> bool
    ensures { MatchBool result (pseudo_fields fields.now ≡ []) (pseudo_fields fields.now ≡ [] → ⊥) }
{
    fields::are_regular(fields)
}
