//! What a response is told in.

ghost use Rattle.std.specs.Prelude.{◌≡◌, ◌≤◌, ◌++◌, ◌∷◌, [], OnOk, OnErr};
ghost use Rattle.response_texts.specs.HeadSizes.{field_octets};
ghost use Rattle.model.specs.Http2.{pseudo_fields};
ghost use Rattle.h1_reader.specs.Parts.{ends_with};
ghost use Rattle.h1_reader.specs.Parts.Part.{Interim, Final, Body, Trailing, Done};
ghost use Rattle.h1_reader.specs.Views.{parts_of};
ghost use Rattle.h1_reader.specs.GoesOn.{IsJoined};

use hpack_table::Field;
use response_texts::{ResponseHead, Trailers};
use std::alloc::{AllocError, Global};
use std::marker::Model;

/// A part of a response, in the order in which they come.
#[derive(Drop)]
pub enum Piece {
    /// An interim head (RFC 9110, section 15.2).
    Interim(ResponseHead),
    /// The final head.
    Head(ResponseHead),
    /// Octets of the body.
    Body(Vec<u8>),
    /// Its trailers, where some are left.
    Trailers(Trailers),
    /// The response is whole.
    Done,
}

/// Room is made for so many octets of a body at most before they come.
const MOST_ROOM: u64 = 1_048_576;

/// Pieces that are told, in their order.
#[derive(Drop)]
pub(crate) struct Told {
    alloc: Global,
    items: Vec<Piece>,
}

impl Model for Told {
    ghost use Rattle.std.specs.Prelude.{List};
    ghost use Rattle.h1_reader.specs.Parts.{Part};
    ghost use Rattle.h1_reader.specs.Views.{parts_of};

    ghost Value = { List Part };

    ghost view = { λ told. parts_of told.items.items };
}

impl Told {
    /// No pieces.
    pub(crate) fn new(alloc: Global) -> Self
        ensures { result ≡ [] }
    {
        Told {
            alloc,
            items: Vec::new(alloc),
        }
    }

    /// Adds an interim head.
    pub(crate) fn interim(&mut self, head: ResponseHead) -> Result<(), AllocError>
        ensures { OnOk result (self.new ≡ self.old ++ Interim head ∷ []) }
    {
        self.items.push(Piece::Interim(head))?;
        Ok(())
    }

    /// Adds a final head.
    pub(crate) fn head(&mut self, head: ResponseHead) -> Result<(), AllocError>
        ensures { OnOk result (self.new ≡ self.old ++ Final head ∷ []) }
    {
        self.items.push(Piece::Head(head))?;
        Ok(())
    }

    /// Adds octets of a body.
    pub(crate) fn body(&mut self, octets: &[u8]) -> Result<(), AllocError>
        ensures { OnOk result (self.new ≡ self.old ++ Body octets.now ∷ []) }
    {
        let octets = Vec::from_slice(self.alloc, octets)?;
        self.items.push(Piece::Body(octets))?;
        Ok(())
    }

    /// Whether a final head was told last.
    fn ends_with_head(&self) -> bool {
        matches!(self.items.last(), Some(Piece::Head(_)))
    }

    /// Adds octets of a body of which so many more are to come. Those that come with the head have
    /// room for these too, since who gathers the body puts them there.
    pub(crate) fn sized_body(&mut self, octets: &[u8], left: u64) -> Result<(), AllocError>
        ensures { OnOk result (self.new ≡ self.old ++ Body octets.now ∷ []) }
    {
        let mut body = Vec::new(self.alloc);
        if self.ends_with_head() {
            let room = left.min(MOST_ROOM) as usize;
            body.reserve_exact(octets.len().saturating_add(room))?;
        }
        body.extend_from_slice(octets)?;
        self.items.push(Piece::Body(body))?;
        Ok(())
    }

    /// Adds octets of a chunk, joined to those of a body where some were told last.
    pub(crate) fn chunk(&mut self, octets: &[u8]) -> Result<(), AllocError>
        ensures { OnOk result (IsJoined self.old octets.now self.new) }
    {
        match self.items.pop() {
            Some(Piece::Body(body)) => {
                let mut joined = body;
                joined.extend_from_slice(octets)?;
                self.items.push(Piece::Body(joined))?;
                Ok(())
            }
            Some(last) => {
                self.items.push(last)?;
                self.body(octets)
            }
            None => self.body(octets),
        }
    }

    /// Adds that the response is whole.
    pub(crate) fn done(&mut self) -> Result<(), AllocError>
        ensures { OnOk result (self.new ≡ self.old ++ Done ∷ []) }
    {
        self.items.push(Piece::Done)?;
        Ok(())
    }

    /// Adds trailers.
    fn trailers(&mut self, trailers: Trailers) -> Result<(), AllocError>
        ensures { OnOk result (self.new ≡ self.old ++ Trailing trailers ∷ []) }
    {
        self.items.push(Piece::Trailers(trailers))?;
        Ok(())
    }

    /// Adds the trailers, where there are some, and that the response is whole.
    pub(crate) fn end(&mut self, fields: Vec<Field>) -> Result<(), AllocError>
        requires plain { pseudo_fields fields.items ≡ [] }
        requires short { field_octets fields.items ≤ 16384 }
        ensures { OnOk result (self.new ≡ self.old ++ ends_with fields.items) }
    {
        if !fields.is_empty() {
            self.trailers(Trailers::new(fields))?;
        }
        self.done()
    }

    /// Moves the pieces behind others.
    pub(crate) fn move_to(self, pieces: &mut Vec<Piece>) -> Result<(), AllocError>
        ensures ok { OnOk result (parts_of pieces.new.items ≡ parts_of pieces.old.items ++ self) }
        ensures err { OnErr result (pieces.new.items ≡ pieces.old.items) }
    {
        let mut items = self.items;
        pieces.append(&mut items)
    }
}
