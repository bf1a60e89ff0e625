//! Octets of names and values.

ghost use Rattle.std.specs.Prelude.{◌≡◌, ◌≤◌, ◌<◌, ◌∷◌, [], true, length, reverse, bytes_eq, IfOk, IfSome, MatchOption};
ghost use Rattle.std.specs.List.{list_all, list_any};
ghost use Rattle.std.specs.Str.Parse.{digits_value};
ghost use Rattle.httparse.specs.Grammar.{skip_ows, trim_ows};
ghost use Rattle.model.specs.Octets.{some_of, is_digit, is_space, lower, lower_octet};
ghost use Rattle.model.specs.ResponseHeads.{cut_at, names_in};

use std::alloc::{AllocError, Global};

/// An ASCII letter in lower case, any other octet as it is.
fn lower_octet(octet: u8) -> u8
    ensures { result ≡ lower_octet octet }
{
    if matches!(octet, b'A'..=b'Z') {
        octet + 32
    } else {
        octet
    }
}

/// The text in lower case, with room for so many octets behind it.
pub fn lowered(alloc: Global, text: &[u8], room: usize) -> Result<Vec<u8>, AllocError>
    ensures { IfOk result (λ low. low.items ≡ lower text.now) }
{
    let mut low = Vec::with_capacity(alloc, text.len().saturating_add(room))?;
    low.extend_from_slice(text)?;
    low.make_ascii_lowercase();
    Ok(low)
}

/// Whether the octet is a space or a tab.
fn is_space(octet: u8) -> bool
    ensures { result ≡ is_space octet }
{
    matches!(octet, b' ' | b'\t')
}

/// The text without the spaces and tabs before it.
fn without_front(text: &[u8]) -> &[u8]
    ensures { result.now ≡ skip_ows text.now }
{
    let mut rest = text;
    while let [first, more @ ..] = rest {
        if !is_space(*first) {
            return rest;
        }
        rest = more;
    }
    rest
}

/// The text without the spaces and tabs behind it.
fn without_back(text: &[u8]) -> &[u8]
    ensures { result.now ≡ reverse (skip_ows (reverse text.now)) }
{
    let mut rest = text;
    while let [more @ .., last] = rest {
        if !is_space(*last) {
            return rest;
        }
        rest = more;
    }
    rest
}

/// The text without the spaces and tabs at its ends.
#[tactic(auto, unfolding(httparse::specs::Grammar::trim_ows))]
fn trimmed(text: &[u8]) -> &[u8]
    ensures { result.now ≡ trim_ows text.now }
{
    without_back(without_front(text))
}

/// Whether the name is the text in lower case.
fn is_lower_of(name: &[u8], text: &[u8]) -> bool
    ensures { result ≡ bytes_eq name.now (lower text.now) }
{
    if name.len() != text.len() {
        return false;
    }
    for place in 0..name.len() {
        if name[place] != lower_octet(text[place]) {
            return false;
        }
    }
    true
}

/// The text before the first comma, and the text behind it, if there is one.
fn cut(text: &[u8]) -> (&[u8], Option<&[u8]>)
    ensures cut { MatchOption result.1 (cut_at 44 text.now ≡ result.0.now ∷ []) (λ rest. cut_at 44 text.now ≡ result.0.now ∷ cut_at 44 rest.now) }
    ensures shorter { IfSome result.1 (λ rest. length rest.now < length text.now) }
{
    for place in 0..text.len() {
        if text[place] == b',' {
            return (&text[..place], Some(&text[place + 1..]));
        }
    }
    (text, None)
}

/// Whether a value of Connection names this name, which is in lower case (RFC 9110, section 7.6.1).
pub fn names(value: &[u8], name: &[u8]) -> bool
    ensures { result ≡ list_any (bytes_eq name.now) (names_in value.now) }
{
    let mut rest = value;
    loop {
        let (part, more) = cut(rest);
        if is_lower_of(name, trimmed(part)) {
            return true;
        }
        match more {
            None => return false,
            Some(more) => rest = more,
        }
    }
}
