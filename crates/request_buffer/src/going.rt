//! A request that goes out as it comes.

ghost use Rattle.std.specs.Prelude.{◌≡◌, MatchBool, IfOk};
ghost use Rattle.h1_writer.specs.Sending.Stage.{Whole};
ghost use Rattle.request_buffer.specs.Going.{MayGo, GoesOn};

use crate::buffered_request::CHUNK_ROOM;
use h1_writer::Sender;
use hpack_table::Field;
use std::alloc::{AllocError, Global};
use std::marker::Model;

/// A request whose head went out, and whose body goes out as it comes. A clause sees what its text still waits for.
#[derive(Drop)]
pub struct Going {
    sender: Sender,
}

impl Model for Going {
    ghost use Rattle.h1_writer.specs.Sending.{Stage};

    ghost Value = { Stage };

    ghost view = { λ going. going.sender };
}

impl Going {
    /// A request of which this sends the rest.
    pub(crate) fn by(sender: Sender) -> Going
        ensures { result ≡ sender }
    {
        Going { sender }
    }

    /// Whether nothing of it is to go out any more.
    pub fn is_whole(&self) -> bool
        ensures { MatchBool result (self.now ≡ Whole) (self.now ≡ Whole → ⊥) }
    {
        !self.sender.may_push(0)
    }

    /// What goes out for these octets of its body, and with its end and these trailers where they
    /// end it (RFC 9112, sections 6 and 7.1). An `Err` says that memory was refused.
    pub fn pass(
        &mut self,
        alloc: Global,
        octets: &[u8],
        ends: bool,
        trailers: &[Field],
    ) -> Result<Vec<u8>, AllocError>
        requires { MayGo self.old octets.now ends }
        ensures { IfOk result (λ text. GoesOn self.old octets.now trailers.now ends text.items self.new) }
    {
        let mut text = Vec::with_capacity(alloc, octets.len().saturating_add(CHUNK_ROOM))?;
        self.sender.push(octets, &mut text)?;
        if !ends {
            return Ok(text);
        }
        self.sender.finish(trailers, &mut text)?;
        Ok(text)
    }
}
