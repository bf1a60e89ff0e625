//! What a list of fields says of names and values.

ghost use Rattle.std.specs.Prelude.{◌≡◌, length, not, true, false, ◌&&◌, ◌||◌, ◌++◌, [], codes, bytes_eq, nat_le, count_by, MatchBool};
ghost use Rattle.std.specs.List.{list_all, list_any};
ghost use Rattle.model.specs.Octets.{some_of, is_value, is_digit, lower};
ghost use Rattle.model.specs.Http1.{values_of};
ghost use Rattle.model.specs.Http2.{first_of, is_pseudo, pseudo_fields, regular_fields, is_path_for, known_names};
ghost use Rattle.model.specs.Http2.{is_name_octet, connection_names, names_not_in_trailers};
ghost use Rattle.field_rules.specs.Ordinary.{judged_names, is_ordinary, EndsOrdinary, IsShortest};

use crate::octets;
use hpack_table::Field;

/// Whether the field has this name.
pub fn is_named(field: &Field, name: &[u8]) -> bool
    ensures { result ≡ bytes_eq field.now.name name.now }
{
    field.name() == name
}

/// Whether the field is a pseudo-field (RFC 9113, section 8.3).
pub fn is_pseudo(field: &Field) -> bool
    ensures { result ≡ is_pseudo field.now }
{
    match field.name() {
        [first, ..] => *first == b':',
        [] => false,
    }
}

/// How many fields have this name.
pub fn count(head: &[Field], name: &[u8]) -> usize
    ensures { result ≡ count_by (λ field. bytes_eq field.name name.now) head.now }
{
    head.iter().filter(|field| is_named(field, name)).count()
}

/// Whether no trailers pass on a field of this name (RFC 9110, section 6.5.1): those that frame or
/// route a message, that are acted on before its body is read, or that say who asks.
pub fn is_kept_from_trailers(field: &Field) -> bool
    ensures { result ≡ list_any (bytes_eq field.now.name) names_not_in_trailers }
{
    is_named(field, b"host")
        || is_named(field, b"content-length")
        || is_named(field, b"te")
        || is_named(field, b"trailer")
        || is_named(field, b"expect")
        || is_named(field, b"cookie")
        || is_named(field, b"set-cookie")
        || is_named(field, b"authorization")
}

/// The value of the first field of this name, and nothing where there is none.
pub fn first_value<'a>(head: &'a [Field], name: &[u8]) -> &'a [u8]
    ensures { result.now ≡ first_of (values_of name.now head.now) }
{
    for field in head {
        if is_named(field, name) {
            return field.value();
        }
    }
    b"".as_slice()
}

/// Whether the field's name is right, a pseudo-field's aside.
fn has_name(field: &Field) -> bool
    ensures { result ≡ (is_pseudo field.now || some_of is_name_octet field.now.name) }
{
    is_pseudo(field) || octets::is_name(field.name())
}

/// Whether all names are right (RFC 9113, section 8.2.1).
pub fn names_hold(head: &[Field]) -> bool
    ensures { result ≡ list_all (λ field. is_pseudo field || some_of is_name_octet field.name) head.now }
{
    head.iter().all(|field| has_name(field))
}

/// Whether all values are right (RFC 9113, section 8.2.1).
pub fn values_hold(head: &[Field]) -> bool
    ensures { result ≡ list_all (λ field. is_value field.value) head.now }
{
    head.iter().all(|field| octets::is_value(field.value()))
}

/// Whether the field speaks of the connection (RFC 9113, section 8.2.2).
fn is_of_connection(field: &Field) -> bool
    ensures { result ≡ list_any (bytes_eq field.now.name) connection_names }
{
    is_named(field, b"connection")
        || is_named(field, b"proxy-connection")
        || is_named(field, b"keep-alive")
        || is_named(field, b"transfer-encoding")
        || is_named(field, b"upgrade")
}

/// Whether a rule of a whole head speaks of the field's name.
fn is_judged(field: &Field) -> bool
    ensures { result ≡ list_any (bytes_eq field.now.name) judged_names }
{
    is_named(field, b"te")
        || is_named(field, b"host")
        || is_named(field, b"content-length")
        || is_of_connection(field)
}

/// Whether the field breaks no rule of its own, and no rule of a whole head speaks of it.
fn is_ordinary(field: &Field) -> bool
    ensures { result ≡ is_ordinary field.now }
{
    octets::is_name(field.name()) && octets::is_value(field.value()) && !is_judged(field)
}

/// The head without the ordinary fields at its end.
pub fn before_ordinary(head: &[Field]) -> &[Field]
    ensures ordinary { EndsOrdinary result.now head.now }
    ensures shortest { IsShortest result.now }
{
    let mut front = head;
    while let [more @ .., last] = front {
        if !is_ordinary(last) {
            return front;
        }
        front = more;
    }
    front
}

/// Whether no field speaks of the connection.
pub fn has_no_connection_field(head: &[Field]) -> bool
    ensures { result ≡ list_all (λ field. not (list_any (bytes_eq field.name) connection_names)) head.now }
{
    head.iter().all(|field| !is_of_connection(field))
}

/// Whether the field is no `te` or allows trailers alone.
fn te_holds_of(field: &Field) -> bool
    ensures { result ≡ (not (bytes_eq field.now.name (codes "te")) || bytes_eq field.now.value (codes "trailers")) }
{
    !is_named(field, b"te") || field.value() == b"trailers".as_slice()
}

/// Whether each `te` allows trailers alone (RFC 9113, section 8.2.2).
pub fn te_holds(head: &[Field]) -> bool
    ensures { result ≡ list_all (λ field. not (bytes_eq field.name (codes "te")) || bytes_eq field.value (codes "trailers")) head.now }
{
    head.iter().all(|field| te_holds_of(field))
}

/// Whether the field is no scheme or names one that is taken.
fn scheme_holds_of(field: &Field) -> bool
    ensures { result ≡ (not (bytes_eq field.now.name (codes ":scheme"))
        || (bytes_eq field.now.value (codes "http") || bytes_eq field.now.value (codes "https"))) }
{
    !is_named(field, b":scheme")
        || field.value() == b"http".as_slice()
        || field.value() == b"https".as_slice()
}

/// Whether each scheme is `http` or `https`.
pub fn scheme_holds(head: &[Field]) -> bool
    ensures { result ≡ list_all (λ field. not (bytes_eq field.name (codes ":scheme"))
        || (bytes_eq field.value (codes "http") || bytes_eq field.value (codes "https"))) head.now }
{
    head.iter().all(|field| scheme_holds_of(field))
}

/// Whether the field is no path, or one that its method allows (RFC 9113, section 8.3.1).
fn path_holds_of(field: &Field, method: &[u8]) -> bool
    ensures { result ≡ (not (bytes_eq field.now.name (codes ":path")) || is_path_for method.now field.now.value) }
{
    !is_named(field, b":path") || octets::is_path_for(method, field.value())
}

/// Whether each path is one that the method allows.
pub fn path_holds(head: &[Field], method: &[u8]) -> bool
    ensures { result ≡ list_all (λ field. not (bytes_eq field.name (codes ":path")) || is_path_for method.now field.value) head.now }
{
    head.iter().all(|field| path_holds_of(field, method))
}

/// Whether the field has another name, or this value, ASCII case aside.
fn is_alike_of(field: &Field, name: &[u8], value: &[u8]) -> bool
    ensures { result ≡ (not (bytes_eq field.now.name name.now) || bytes_eq (lower field.now.value) (lower value.now)) }
{
    !is_named(field, name) || octets::are_alike(field.value(), value)
}

/// Whether all fields of the name have this value, ASCII case aside.
pub fn are_alike(head: &[Field], name: &[u8], value: &[u8]) -> bool
    ensures { result ≡ list_all (λ field. not (bytes_eq field.name name.now) || bytes_eq (lower field.value) (lower value.now)) head.now }
{
    head.iter().all(|field| is_alike_of(field, name, value))
}

/// Whether the text is a length of 1 to 18 digits.
fn is_length(text: &[u8]) -> bool
    ensures { result ≡ (some_of is_digit text.now && nat_le (length text.now) 18) }
{
    octets::is_number(text) && text.len() <= 18
}

/// Whether the field is no content-length, or one of 1 to 18 digits.
fn length_holds_of(field: &Field) -> bool
    ensures { result ≡ (not (bytes_eq field.now.name (codes "content-length")) || (some_of is_digit field.now.value && nat_le (length field.now.value) 18)) }
{
    !is_named(field, b"content-length") || is_length(field.value())
}

/// Whether each content-length has 1 to 18 digits.
pub fn lengths_hold(head: &[Field]) -> bool
    ensures { result ≡ list_all (λ field. not (bytes_eq field.name (codes "content-length"))
        || (some_of is_digit field.value && nat_le (length field.value) 18)) head.now }
{
    head.iter().all(|field| length_holds_of(field))
}

/// Whether the field is no pseudo-field, or a known one (RFC 9113, section 8.3.1).
fn is_known(field: &Field) -> bool
    ensures { result ≡ (not (is_pseudo field.now) || list_any (bytes_eq field.now.name) known_names) }
{
    !is_pseudo(field)
        || is_named(field, b":method")
        || is_named(field, b":scheme")
        || is_named(field, b":path")
        || is_named(field, b":authority")
}

/// Whether each pseudo-field is a known one.
pub fn are_known(head: &[Field]) -> bool
    ensures { result ≡ list_all (λ field. not (is_pseudo field) || list_any (bytes_eq field.name) known_names) head.now }
{
    head.iter().all(|field| is_known(field))
}

/// Whether no field is a pseudo-field.
pub fn are_regular(head: &[Field]) -> bool
    ensures { result ≡ list_all (λ field. not (is_pseudo field)) head.now }
{
    head.iter().all(|field| !is_pseudo(field))
}

/// Whether the pseudo-fields stand first (RFC 9113, section 8.3).
pub fn stand_first(head: &[Field]) -> bool
    ensures { MatchBool result (head.now ≡ pseudo_fields head.now ++ regular_fields head.now) (head.now ≡ pseudo_fields head.now ++ regular_fields head.now
        → ⊥) }
{
    let mut rest = head;
    while let [first, more @ ..] = rest {
        if !is_pseudo(first) {
            return are_regular(rest);
        }
        rest = more;
    }
    true
}
