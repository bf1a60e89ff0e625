//! What a step puts out, gathered in order; what follows each other to one place is joined.

ghost use Rattle.std.specs.Prelude.{◌≡◌, ℕ, List, [], ◌∷◌, ◌++◌, OnOk, OnErr, IfOk, reverse};
ghost use Rattle.model.specs.Frames.{spell, Fits};
ghost use Rattle.model.specs.Logs.Act.{Open as DoesOpen, ToUp as DoesUp, Close as DoesClose, CloseClient as DoesEnd};
ghost use Rattle.model.specs.Logs.Output.{ToClient, Does};
ghost use Rattle.model.specs.Tapes.{put};
ghost use Rattle.frames.specs.Views.{frame_of, joined};
ghost use Rattle.effects.specs.Views.{outputs_of};

use crate::events::Output;
use frames::View;
use h1_writer::Text;
use protocol::lengths::FRAME_HEADER;
use protocol::limits::LONGEST_PAYLOAD;
use std::alloc::{AllocError, Global};
use std::marker::Model;

/// Room for so many octets is made where a frame of the longest payload finds none: more such
/// frames follow it most often.
const FOLLOWING: usize = 4 * (FRAME_HEADER + LONGEST_PAYLOAD);

/// Makes room for a frame, if its payload of so many octets is the longest. An `Err` says that memory was refused.
fn make_room(octets: &mut Vec<u8>, payload: usize) -> Result<(), AllocError>
    ensures { octets.new.items ≡ octets.old.items }
{
    let has_room = octets.capacity() - octets.len() >= FRAME_HEADER + LONGEST_PAYLOAD;
    if payload < LONGEST_PAYLOAD || has_room {
        return Ok(());
    }
    octets.reserve(FOLLOWING)
}

/// The outputs of a step. A clause sees the newest first.
#[derive(Drop)]
pub struct Outputs {
    alloc: Global,
    items: Vec<Output>,
}

impl Model for Outputs {
    ghost use Rattle.std.specs.Prelude.{List, map, reverse};
    ghost use Rattle.model.specs.Logs.{Output as Put};
    ghost use Rattle.effects.specs.Views.{output_of};

    ghost Value = { List Put };

    ghost view = { λ outputs. reverse (map output_of outputs.items.items) };
}

impl Outputs {
    /// No outputs.
    pub fn new(alloc: Global) -> Outputs
        ensures { result ≡ [] }
    {
        Outputs {
            alloc,
            items: Vec::new(alloc),
        }
    }

    /// Takes off the octets for the client that the outputs end with; where they end otherwise, none.
    fn take_octets(&mut self) -> Result<Vec<u8>, AllocError>
        ensures { IfOk result (λ octets. (more : List ℕ) → put self.old (ToClient more) ≡ ToClient (octets.items ++ more) ∷ self.new) }
    {
        match self.items.pop() {
            Some(Output::Client(octets)) => Ok(octets),
            Some(other) => {
                self.items.push(other)?;
                Ok(Vec::new(self.alloc))
            }
            None => Ok(Vec::new(self.alloc)),
        }
    }

    /// Puts a frame out to the client (RFC 9113, section 4.1): its payload has at most 16,384
    /// octets, its stream's number is below 2,147,483,648. Nothing is allocated where the outputs
    /// end with octets for the client that have room. An `Err` says that memory was refused, as
    /// from each call here that puts something out; then the outputs are of no use any more.
    pub fn send(&mut self, view: &View<'_>) -> Result<(), AllocError>
        requires { Fits (frame_of view.now) }
        ensures { OnOk result (self.new ≡ put self.old (ToClient (spell (frame_of view.now)))) }
    {
        self.send_joined(view, &[])
    }

    /// Puts a frame out to the client as [`Outputs::send`] does, whose payload lies in two parts,
    /// that of `view` and `more` behind it: together they have at most 16,384 octets. An `Err` says
    /// that memory was refused.
    pub fn send_joined(&mut self, view: &View<'_>, more: &[u8]) -> Result<(), AllocError>
        requires { Fits (joined view.now more.now) }
        ensures { OnOk result (self.new ≡ put self.old (ToClient (spell (joined view.now more.now)))) }
    {
        let mut octets = self.take_octets()?;
        make_room(&mut octets, view.payload.len() + more.len())?;
        frames::write_joined(view, more, &mut octets)?;
        self.items.push(Output::Client(octets))?;
        Ok(())
    }

    /// Puts octets out to the upstream connection `k`.
    pub fn send_up(&mut self, k: u32, octets: Text) -> Result<(), AllocError>
        ensures { OnOk result (self.new ≡ put self.old (Does (DoesUp k octets))) }
    {
        match self.items.pop() {
            Some(Output::Up(j, mut before)) => {
                if j == k {
                    before.append(octets.as_slice())?;
                    self.items.push(Output::Up(j, before))?;
                } else {
                    self.items.push(Output::Up(j, before))?;
                    self.items.push(Output::Up(k, octets))?;
                }
            }
            Some(other) => {
                self.items.push(other)?;
                self.items.push(Output::Up(k, octets))?;
            }
            None => self.items.push(Output::Up(k, octets))?,
        }
        Ok(())
    }

    /// Opens the upstream connection `k`, by the place of its route, from 0.
    pub fn open_up(&mut self, k: u32, route: u32) -> Result<(), AllocError>
        ensures { OnOk result (self.new ≡ put self.old (Does (DoesOpen k route))) }
    {
        self.items.push(Output::Open(k, route))?;
        Ok(())
    }

    /// Closes the upstream connection `k`.
    pub fn close_up(&mut self, k: u32) -> Result<(), AllocError>
        ensures { OnOk result (self.new ≡ put self.old (Does (DoesClose k))) }
    {
        self.items.push(Output::Close(k))?;
        Ok(())
    }

    /// Closes the client's connection.
    pub fn close_client(&mut self) -> Result<(), AllocError>
        ensures { OnOk result (self.new ≡ put self.old (Does DoesEnd)) }
    {
        self.items.push(Output::CloseClient)?;
        Ok(())
    }

    /// Moves all to the end of other outputs, which an `Err`, where memory was refused, leaves as they were.
    pub fn append_to(mut self, out: &mut Vec<Output>) -> Result<(), AllocError>
        ensures ok { OnOk result (outputs_of out.new.items ≡ outputs_of out.old.items ++ reverse self) }
        ensures err { OnErr result (out.new.items ≡ out.old.items) }
    {
        out.append(&mut self.items)
    }
}
