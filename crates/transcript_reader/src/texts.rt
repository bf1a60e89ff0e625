//! Places in octets, and the heads of messages.

/// Whether something of this length is cut at a place: at each, or, where it is longer than 2,000,
/// behind its first hundred, at its end and two places before, and at every 1,021st, a prime, so
/// that the cuts meet frames at other places each time; else a piece of 65,535 octets would be run
/// through as often. Of so many events it is each such one whose octets are cut: of the last two,
/// too, of which one is the client's.
pub(crate) fn is_cut(place: usize, length: usize) -> bool {
    length <= 2000 || place <= 100 || place % 1021 == 0 || length.saturating_sub(place) < 3
}

/// Where a part stands first in octets.
pub(crate) fn place_of(octets: &[u8], part: &[u8]) -> Option<usize> {
    for start in 0..octets.len() {
        if octets[start..].starts_with(part) {
            return Some(start);
        }
    }
    None
}

/// The end of a head.
const HEAD_END: &[u8] = b"\r\n\r\n";

/// What stands behind the head of a message, if all of it stands there.
pub(crate) fn body_of(text: &[u8]) -> Option<&[u8]> {
    let end = place_of(text, HEAD_END)?;
    text.get(end.saturating_add(HEAD_END.len())..)
}
