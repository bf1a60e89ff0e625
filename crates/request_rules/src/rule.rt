//! The rules, by name.

/// What a request breaks, or that memory was refused.
#[derive(Debug, Drop, Clone, Copy, PartialEq, Eq)]
pub enum Rule {
    /// A pseudo-field is missing, doubled, unknown, late or out of place (RFC 9113, sections 8.3 and 8.5).
    PseudoField,
    /// A name is no token, or has upper-case letters (RFC 9113, section 8.2.1).
    Name,
    /// A value has an octet that it can't have, or a space at an end (RFC 9113, section 8.2.1).
    Value,
    /// A field speaks of the connection (RFC 9113, section 8.2.2).
    ConnectionField,
    /// A `te` field says other than `trailers` (RFC 9113, section 8.2.2).
    Te,
    /// The method is no token (RFC 9110, section 9.1).
    Method,
    /// The scheme is neither `http` nor `https`.
    Scheme,
    /// The path isn't one of its method (RFC 9113, section 8.3.1).
    Path,
    /// The authority is missing, has another octet, or isn't the host's (RFC 9113, section 8.3.1).
    Authority,
    /// There are two content-lengths, or one that isn't 1 to 18 digits.
    ContentLength,
    /// The body isn't as long as it was declared (RFC 9113, section 8.1.1).
    Length,
    /// Memory was refused.
    Memory,
}
