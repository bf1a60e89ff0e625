//! What is passed back of a response: heads and trailers.

ghost use Rattle.std.specs.Prelude.{◌≡◌};
ghost use Rattle.response_texts.specs.HeadSizes.{CanBePassedBack, CanTrail};

use hpack_table::Field;
use std::marker::Model;

/// A head as it is passed back: its status, and its fields with names in lower case (RFC 9110,
/// section 7.6.1). None of them is a pseudo-field, and their names and values have at most 16,384
/// octets.
#[derive(Drop)]
pub struct ResponseHead {
    status: u16,
    fields: Vec<Field>,
}

impl Model for ResponseHead {
    ghost use Rattle.model.specs.ResponseHeads.{Head};

    ghost Value = { Head };

    ghost view = { λ head. record { status = head.status; fields = head.fields.items } };

    ghost use Rattle.response_texts.specs.HeadSizes.{CanBePassedBack};

    ghost invariant = { λ head. CanBePassedBack (record { status = head.status; fields = head.fields.items }) };
}

impl ResponseHead {
    /// The head of this status, of three digits at most, and these fields, of which none is a
    /// pseudo-field, and whose names and values have at most 16,384 octets.
    pub fn new(status: u16, fields: Vec<Field>) -> Self
        requires { CanBePassedBack (record { status = status; fields = fields.items }) }
        ensures status { result.status ≡ status }
        ensures fields { result.fields ≡ fields.items }
    {
        ResponseHead { status, fields }
    }

    /// The status, of three digits (RFC 9112, section 4).
    pub fn status(&self) -> u16
        ensures { result ≡ self.now.status }
    {
        self.status
    }

    /// The fields in their order.
    pub fn fields(&self) -> &[Field]
        ensures { result.now ≡ self.now.fields }
    {
        &self.fields
    }

    /// The fields in their order, taken out of the head.
    pub fn into_fields(self) -> Vec<Field>
        ensures are { result.items ≡ self.fields }
        ensures passed { CanBePassedBack self }
    {
        self.fields
    }
}

/// Trailers as they are passed back, of which there are some, with names in lower case. None of
/// them is a pseudo-field, and their names and values have at most 16,384 octets.
#[derive(Drop)]
pub struct Trailers {
    lines: Vec<Field>,
}

impl Model for Trailers {
    ghost use Rattle.std.specs.Prelude.{List};
    ghost use Rattle.model.specs.Messages.{Field};

    ghost Value = { List Field };

    ghost view = { λ trailers. trailers.lines.items };

    ghost use Rattle.response_texts.specs.HeadSizes.{CanTrail};

    ghost invariant = { λ trailers. CanTrail trailers.lines.items };
}

impl Trailers {
    /// These fields, of which there are some, none is a pseudo-field, and whose names and values
    /// have at most 16,384 octets.
    pub fn new(lines: Vec<Field>) -> Self
        requires { CanTrail lines.items }
        ensures { result ≡ lines.items }
    {
        Trailers { lines }
    }

    /// The fields in their order.
    pub fn fields(&self) -> &[Field]
        ensures are { result.now ≡ self.now }
        ensures passed { CanTrail self.now }
    {
        &self.lines
    }

    /// The fields in their order, taken out.
    pub fn into_fields(self) -> Vec<Field>
        ensures are { result.items ≡ self }
        ensures passed { CanTrail self }
    {
        self.lines
    }
}
