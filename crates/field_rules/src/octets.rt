//! Octets and texts: tokens, values, paths and authorities. Tests of all octets of a text don't
//! stop early, so that many octets are tested at once.

ghost use Rattle.std.specs.Prelude.{◌≡◌, ◌≤◌, true, length, bytes_eq};
ghost use Rattle.std.specs.Str.Parse.{digits_value};
ghost use Rattle.std.specs.List.{list_all};
ghost use Rattle.model.specs.Octets.{begins_with, some_of, is_digit, is_token_octet, is_visible, is_space};
ghost use Rattle.model.specs.Octets.{is_value_octet, is_value, begins_with_space, ends_with_space, lower};
ghost use Rattle.model.specs.Http2.{is_name_octet, is_authority_octet, is_path_for};

/// Whether a token may hold the octet (RFC 9110, section 5.6.2).
fn is_token_octet(octet: u8) -> bool
    ensures { result ≡ is_token_octet octet }
{
    matches!(
        octet,
        b'0'..=b'9'
            | b'A'..=b'Z'
            | b'a'..=b'z'
            | b'!'
            | b'#'
            | b'$'
            | b'%'
            | b'&'
            | b'\''
            | b'*'
            | b'+'
            | b'-'
            | b'.'
            | b'^'
            | b'_'
            | b'`'
            | b'|'
            | b'~'
    )
}

/// Whether a field's name may hold the octet: a token's, and no upper-case letter.
fn is_name_octet(octet: u8) -> bool
    ensures { result ≡ is_name_octet octet }
{
    if matches!(octet, b'a'..=b'z') {
        return true;
    }
    is_token_octet(octet) && !matches!(octet, b'A'..=b'Z')
}

/// Whether the octet is visible ASCII.
fn is_visible(octet: u8) -> bool
    ensures { result ≡ is_visible octet }
{
    matches!(octet, 0x21..=0x7e)
}

/// Whether an authority may hold the octet.
fn is_authority_octet(octet: u8) -> bool
    ensures { result ≡ is_authority_octet octet }
{
    is_visible(octet) && !matches!(octet, b'/' | b'?' | b'#' | b'@' | b'\\')
}

/// Whether a field's value may hold the octet (RFC 9110, section 5.5).
fn is_value_octet(octet: u8) -> bool
    ensures { result ≡ is_value_octet octet }
{
    matches!(octet, b'\t' | 0x20..=0x7e | 0x80..=0xff)
}

/// Whether the octet is a space or a tab.
fn is_space(octet: u8) -> bool
    ensures { result ≡ is_space octet }
{
    matches!(octet, b' ' | b'\t')
}

/// Whether all octets may stand in a token.
fn are_token_octets(text: &[u8]) -> bool
    ensures { result ≡ list_all is_token_octet text.now }
{
    text.iter().all(|octet| is_token_octet(*octet))
}

/// Whether the text is a token.
#[tactic(auto, using(crate::proofs::Texts::some_from_all, crate::proofs::Texts::some_of_none))]
pub fn is_token(text: &[u8]) -> bool
    ensures { result ≡ some_of is_token_octet text.now }
{
    !text.is_empty() && are_token_octets(text)
}

/// Whether all octets may stand in a name.
fn are_name_octets(text: &[u8]) -> bool
    ensures { result ≡ list_all is_name_octet text.now }
{
    let mut all = true;
    for octet in text {
        all &= is_name_octet(*octet);
    }
    all
}

/// Whether the text is a token without upper-case letters (RFC 9113, section 8.2.1).
#[tactic(auto, using(crate::proofs::Texts::some_from_all, crate::proofs::Texts::some_of_none))]
pub fn is_name(text: &[u8]) -> bool
    ensures { result ≡ some_of is_name_octet text.now }
{
    !text.is_empty() && are_name_octets(text)
}

/// Whether all octets are digits.
fn are_digits(text: &[u8]) -> bool
    ensures { result ≡ list_all is_digit text.now }
{
    text.iter().all(|octet| matches!(octet, b'0'..=b'9'))
}

/// Whether the text is one or more digits.
#[tactic(auto, using(crate::proofs::Texts::some_from_all, crate::proofs::Texts::some_of_none))]
pub fn is_number(text: &[u8]) -> bool
    ensures { result ≡ some_of is_digit text.now }
{
    !text.is_empty() && are_digits(text)
}

/// Whether all octets may stand in an authority.
fn are_authority_octets(text: &[u8]) -> bool
    ensures { result ≡ list_all is_authority_octet text.now }
{
    let mut all = true;
    for octet in text {
        all &= is_authority_octet(*octet);
    }
    all
}

/// Whether the text is octets of an authority, one or more.
#[tactic(auto, using(crate::proofs::Texts::some_from_all, crate::proofs::Texts::some_of_none))]
pub fn is_authority(text: &[u8]) -> bool
    ensures { result ≡ some_of is_authority_octet text.now }
{
    !text.is_empty() && are_authority_octets(text)
}

/// Whether all octets are visible ASCII.
fn are_visible(text: &[u8]) -> bool
    ensures { result ≡ list_all is_visible text.now }
{
    let mut all = true;
    for octet in text {
        all &= is_visible(*octet);
    }
    all
}

/// Whether all octets may stand in a value.
fn are_value_octets(text: &[u8]) -> bool
    ensures { result ≡ list_all is_value_octet text.now }
{
    let mut all = true;
    for octet in text {
        all &= is_value_octet(*octet);
    }
    all
}

/// Whether the first octet is a space or a tab.
fn begins_with_space(text: &[u8]) -> bool
    ensures { result ≡ begins_with_space text.now }
{
    match text {
        [] => false,
        [first, ..] => is_space(*first),
    }
}

/// Whether the last octet is a space or a tab.
#[tactic(auto, using(crate::proofs::Texts::ends_at_last))]
fn ends_with_space(text: &[u8]) -> bool
    ensures { result ≡ ends_with_space text.now }
{
    match text {
        [] => false,
        [.., last] => is_space(*last),
    }
}

/// Whether the text is a field's value (RFC 9110, section 5.5).
pub fn is_value(text: &[u8]) -> bool
    ensures { result ≡ is_value text.now }
{
    are_value_octets(text) && !begins_with_space(text) && !ends_with_space(text)
}

/// Whether the text is a path for the method (RFC 9113, section 8.3.1).
pub fn is_path_for(method: &[u8], path: &[u8]) -> bool
    ensures { result ≡ is_path_for method.now path.now }
{
    if are_visible(path) && begins_with_slash(path) {
        return true;
    }
    path == b"*".as_slice() && method == b"OPTIONS".as_slice()
}

/// Whether the first octet is a slash.
fn begins_with_slash(text: &[u8]) -> bool
    ensures { result ≡ begins_with 47 text.now }
{
    match text {
        [first, ..] => *first == b'/',
        [] => false,
    }
}

/// Whether the texts are one, ASCII case aside.
pub fn are_alike(text: &[u8], other: &[u8]) -> bool
    ensures { result ≡ bytes_eq (lower text.now) (lower other.now) }
{
    text.eq_ignore_ascii_case(other)
}

/// The number that decimal digits write, at most 18 of them.
pub fn number(digits: &[u8]) -> u64
    requires digits { list_all is_digit digits.now ≡ true }
    requires short { length digits.now ≤ 18 }
    ensures { result ≡ digits_value 10 digits.now }
{
    let mut sum: u64 = 0;
    for digit in digits {
        sum = 10 * sum + (*digit - b'0') as u64;
    }
    sum
}
