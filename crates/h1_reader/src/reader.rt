//! A reader of one response.

ghost use Rattle.std.specs.Prelude.{◌≡◌, ◌≢◌, ◌<◌, ◌≤◌, ◌++◌, ◌∷◌, ◌⊎◌, ◌&&◌, [], ℕ, List, Err, true, false, length, take, OnOk, OnErr, IfOk, IfErr};
ghost use Rattle.h1_reader.specs.Parts.{Part};
ghost use Rattle.response_texts.specs.HeadSizes.{field_octets};
ghost use Rattle.h1_reader.specs.Views.{parts_of};
ghost use Rattle.response_texts.specs.ChunkLines.{IsInRange};
ghost use Rattle.h1_reader.specs.Standing.{Stands, Hears, Breaks, IsEnd};
ghost use Rattle.h1_reader.specs.GoesOn.{GoesOn};
ghost use Rattle.h1_reader.specs.Uses.{Uses, IsUsed, Ends};
ghost use Rattle.response_texts.specs.Framings.{framing_view};
ghost use Rattle.h1_reader.specs.Keeps.{Knows, Learns, ends_itself};
ghost use Rattle.h1_reader.specs.Begins.{Begins};
ghost use Rattle.h1_reader.specs.Faults.{Fails};

use crate::piece::{Piece, Told};
use hpack_table::Field;
use httparse::spans::HeaderSpan;
use response_texts::{
    Framing, FrontRead, LINE_START, LinePlace, LineStep, ResponseFault, TrailersRead, line_step,
    read_front, read_trailers,
};
use std::alloc::Global;
use std::marker::Model;
use std::mem;

/// The most interim heads (this project's profile).
const MOST_INTERIMS: u8 = 8;

/// Whether a response that its server ended was whole.
#[derive(Clone, Copy, PartialEq, Eq, Debug, Drop)]
pub enum Ended {
    /// It was whole.
    Complete,
    /// It was cut short, or refused before.
    Short,
}

/// Where a reader stands.
#[derive(Clone, Copy, Drop)]
pub enum Place {
    /// Before the end of a head, behind so many interim heads.
    Head(u8),
    /// In a body of which so many octets, one or more, are still to come.
    Sized(u64),
    /// In a body that goes on until the server ends the connection.
    UntilEnd,
    /// In the first line of a chunk, perhaps of the last one.
    Line(LinePlace),
    /// In a chunk of which so many octets, one or more, are still to come.
    Chunk(u32),
    /// Behind the octets of a chunk.
    ChunkEnd,
    /// Behind the octets of a chunk and a carriage return.
    ChunkReturn,
    /// In the trailers behind the last chunk.
    Trailers,
    /// Behind a whole response.
    Past,
    /// Behind a fault.
    Broken(ResponseFault),
}

/// Whether the connection stays open behind a response, by its head and where its body ends (RFC 9112, section 9.3).
fn is_kept(stays: bool, framing: Framing) -> bool
    ensures { (named : List (List ℕ)) → result ≡ (stays && ends_itself (framing_view named framing)) }
{
    stays && !matches!(framing, Framing::UntilEnd)
}

/// A reader of one response (RFC 9112), whose octets come in pieces of any length.
#[derive(Drop)]
pub struct Reader {
    alloc: Global,
    to_head: bool,
    place: Place,
    held: Vec<u8>,
    connections: Vec<Field>,
    keeps: bool,
    spans: Vec<HeaderSpan>,
}

impl Model for Reader {
    ghost use Rattle.h1_reader.specs.Standing.{State};

    ghost Value = { State };

    ghost view = { λ r. record {
      to_head = r.to_head;
      place = r.place;
      held = record { octets = r.held.items; connections = r.connections.items; keeps = r.keeps };
    } };

    ghost use Rattle.std.specs.Prelude.{◌≤◌, length};
    ghost use Rattle.response_texts.specs.HeadSizes.{field_octets};
    ghost use Rattle.h1_reader.specs.Standing.{IsKept};

    ghost invariant = { λ r. (length r.held.items ≤ 16384) × (field_octets r.connections.items ≤ 16384) × IsKept r.place r.held.items };
}

impl Reader {
    /// A reader of the response to a request whose method is HEAD or isn't. It takes no memory.
    pub fn new(alloc: Global, to_head: bool) -> Self
        ensures is { result ≡ record { to_head = to_head; place = Place.Head 0; held = record { octets = []; connections = []; keeps = false } } }
        ensures stands { Stands [] [] result }
        ensures knows { Knows [] result }
    {
        Reader {
            alloc,
            to_head,
            place: Place::Head(0),
            held: Vec::new(alloc),
            connections: Vec::new(alloc),
            keeps: false,
            spans: Vec::new(alloc),
        }
    }

    /// Takes the next octets, adds what they tell to the pieces, and answers how many it used: all
    /// of them, or those with which the response became whole, and the rest isn't read.
    ///
    /// The reader stands for those with the pieces that were added, and also for all of the octets,
    /// which begin with the whole response (`ok`). In a later call all octets are used, and
    /// ignored. A fault adds nothing, and every later call answers the same one. It is the fault
    /// that stands in all octets so far, of which there is one at most (`laws`).
    pub fn feed(&mut self, octets: &[u8], pieces: &mut Vec<Piece>) -> Result<usize, ResponseFault>
        ensures ok { IfOk result (λ used. (added : List Part) × (parts_of pieces.new.items ≡ parts_of pieces.old.items ++ added)
            × Hears self.old octets.now added self.new × Hears self.old (take used octets.now) added self.new) }
        ensures used { IfOk result (λ used. Uses self.old octets.now used) }
        ensures knows { IfOk result (λ used. Learns self.old octets.now self.new × Learns self.old (take used octets.now) self.new) }
        ensures fault { IfErr result (λ fault. fault ≢ ResponseFault.Memory → Breaks self.old octets.now) }
        ensures kind { IfErr result (λ fault. fault ≢ ResponseFault.Memory → Fails self.old octets.now fault) }
        ensures unchanged { OnErr result (pieces.new.items ≡ pieces.old.items) }
        ensures broken { IfErr result (λ fault. self.new.place ≡ Place.Broken fault) }
        ensures again { (fault : ResponseFault) → self.old.place ≡ Place.Broken fault → result ≡ Err fault }
        ensures held { length self.new.held.octets ≤ 16384 }
        ensures connections { field_octets self.new.held.connections ≤ 16384 }
    {
        match self.place {
            Place::Broken(fault) => return Err(fault),
            Place::Past => return Ok(octets.len()),
            _ => {}
        }
        let outcome = self.tell(octets, pieces);
        if let Err(fault) = outcome {
            self.place = Place::Broken(fault);
        }
        outcome
    }

    /// Whether the final head lets its connection stay open for another request: it is of HTTP/1.1,
    /// `close` isn't among the options of its fields Connection, and the body ends before the
    /// connection does (`laws`). Before that head it is `false`.
    pub fn keeps(&self) -> bool
        ensures { result ≡ self.now.held.keeps }
    {
        self.keeps
    }

    /// What the end of the connection makes of the response: short behind a fault.
    pub fn end(&self) -> Ended
        ensures is { IsEnd result self.now }
        ensures broken { (fault : ResponseFault) → self.now.place ≡ Place.Broken fault → result ≡ Ended.Short }
    {
        match self.place {
            Place::Head(_) => Ended::Short,
            Place::Sized(_) => Ended::Short,
            Place::UntilEnd => Ended::Complete,
            Place::Line(_) => Ended::Short,
            Place::Chunk(_) => Ended::Short,
            Place::ChunkEnd => Ended::Short,
            Place::ChunkReturn => Ended::Short,
            Place::Trailers => Ended::Short,
            Place::Past => Ended::Complete,
            Place::Broken(_) => Ended::Short,
        }
    }

    /// Takes the next octets, adds what they tell to the pieces, or nothing where there is a fault,
    /// and answers how many it used.
    fn tell(&mut self, octets: &[u8], pieces: &mut Vec<Piece>) -> Result<usize, ResponseFault>
        requires { self.old.place ≢ Place.Past }
        ensures ok { IfOk result (λ used. (added : List Part) × (parts_of pieces.new.items ≡ parts_of pieces.old.items ++ added)
            × Hears self.old (take used octets.now) added self.new) }
        ensures used { IfOk result (λ used. IsUsed self.old octets.now used self.new) }
        ensures learns { IfOk result (λ used. Learns self.old (take used octets.now) self.new) }
        ensures fault { IfErr result (λ fault. fault ≢ ResponseFault.Memory → Fails self.old octets.now fault) }
        ensures unchanged { OnErr result (pieces.new.items ≡ pieces.old.items) }
    {
        let mut told = Told::new(self.alloc);
        let outcome = self.take_all(octets, &mut told);
        if outcome.is_ok() {
            told.move_to(pieces)?;
        }
        outcome
    }

    /// Whether nothing is to be read: the response is whole, or no octets are left.
    fn stops(&self, rest: &[u8]) -> bool
        ensures yes { result ≡ true → (self.now.place ≡ Place.Past) ⊎ (length rest.now ≡ 0) }
        ensures no { result ≡ false → (self.now.place ≢ Place.Past) × (0 < length rest.now) }
    {
        match self.place {
            Place::Past => true,
            _ => rest.is_empty(),
        }
    }

    /// Takes octets, one step after another, until the response is whole or none are left, and answers how many.
    fn take_all(&mut self, octets: &[u8], told: &mut Told) -> Result<usize, ResponseFault>
        requires nothing { told.old ≡ [] }
        requires place { self.old.place ≢ Place.Past }
        ensures ok { IfOk result (λ used. GoesOn self.old told.old (take used octets.now) self.new told.new) }
        ensures used { IfOk result (λ used. IsUsed self.old octets.now used self.new) }
        ensures learns { IfOk result (λ used. Learns self.old (take used octets.now) self.new) }
        ensures fault { IfErr result (λ fault. fault ≢ ResponseFault.Memory → Fails self.old octets.now fault) }
    {
        let mut rest = octets;
        while !self.stops(rest) {
            match self.take(rest, told) {
                Ok(used) => rest = &rest[used..],
                Err(fault) => return Err(fault),
            }
        }
        Ok(octets.len() - rest.len())
    }

    /// Takes some octets, one or more, and answers how many.
    fn take(&mut self, octets: &[u8], told: &mut Told) -> Result<usize, ResponseFault>
        requires octets { 0 < length octets.now }
        requires place { self.old.place ≢ Place.Past }
        ensures ok { IfOk result (λ used. (0 < used) × (used ≤ length octets.now) × GoesOn self.old told.old (take used octets.now) self.new told.new) }
        ensures ends { IfOk result (λ used. Ends self.old (take used octets.now) self.new) }
        ensures learns { IfOk result (λ used. Learns self.old (take used octets.now) self.new) }
        ensures fault { IfErr result (λ fault. fault ≢ ResponseFault.Memory → Fails self.old octets.now fault) }
    {
        match self.place {
            Place::Head(interims) => self.take_head(interims, octets, told),
            Place::Sized(left) => self.take_sized(left, octets, told),
            Place::UntilEnd => {
                told.body(octets)?;
                Ok(octets.len())
            }
            Place::Line(line) => self.take_line(line, octets[0]),
            Place::Chunk(left) => self.take_chunk(left, octets, told),
            Place::ChunkEnd => self.take_return(octets[0]),
            Place::ChunkReturn => self.take_feed(octets[0]),
            Place::Trailers => self.take_trailers(octets, told),
            Place::Past => unreachable!(),
            Place::Broken(fault) => Err(fault),
        }
    }

    /// Takes octets of a body of which so many are to come.
    fn take_sized(
        &mut self,
        left: u64,
        octets: &[u8],
        told: &mut Told,
    ) -> Result<usize, ResponseFault>
        requires place { self.old.place ≡ Place.Sized left }
        requires octets { 0 < length octets.now }
        ensures ok { IfOk result (λ used. (0 < used) × (used ≤ length octets.now) × GoesOn self.old told.old (take used octets.now) self.new told.new) }
        ensures ends { IfOk result (λ used. Ends self.old (take used octets.now) self.new) }
        ensures kept { OnOk result (self.new.held.keeps ≡ self.old.held.keeps) }
        ensures fault { IfErr result (λ fault. fault ≡ ResponseFault.Memory) }
    {
        let count = octets.len() as u64;
        if count < left {
            told.sized_body(octets, left - count)?;
            self.place = Place::Sized(left - count);
            return Ok(octets.len());
        }
        let used = left as usize;
        told.body(&octets[..used])?;
        told.done()?;
        self.place = Place::Past;
        Ok(used)
    }

    /// Takes an octet of a chunk's first line, and answers 1.
    fn take_line(&mut self, line: LinePlace, octet: u8) -> Result<usize, ResponseFault>
        requires place { self.old.place ≡ Place.Line line }
        requires range { IsInRange line }
        ensures ok { IfOk result (λ used. (used ≡ 1) × Hears self.old (octet ∷ []) [] self.new) }
        ensures on { OnOk result (self.new.place ≢ Place.Past) }
        ensures kept { OnOk result (self.new.held.keeps ≡ self.old.held.keeps) }
        ensures fault { IfErr result (λ fault. (rest : List ℕ) → Fails self.old (octet ∷ rest) fault) }
    {
        match line_step(line, octet) {
            None => return Err(ResponseFault::Chunk),
            Some(LineStep::On(next)) => self.place = Place::Line(next),
            Some(LineStep::Whole(0)) => {
                self.held = Vec::new(self.alloc);
                self.place = Place::Trailers;
            }
            Some(LineStep::Whole(size)) => self.place = Place::Chunk(size),
        }
        Ok(1)
    }

    /// Takes octets of a chunk of which so many are to come.
    fn take_chunk(
        &mut self,
        left: u32,
        octets: &[u8],
        told: &mut Told,
    ) -> Result<usize, ResponseFault>
        requires place { self.old.place ≡ Place.Chunk left }
        requires octets { 0 < length octets.now }
        ensures ok { IfOk result (λ used. (0 < used) × (used ≤ length octets.now) × GoesOn self.old told.old (take used octets.now) self.new told.new) }
        ensures on { OnOk result (self.new.place ≢ Place.Past) }
        ensures kept { OnOk result (self.new.held.keeps ≡ self.old.held.keeps) }
        ensures fault { IfErr result (λ fault. fault ≡ ResponseFault.Memory) }
    {
        let count = octets.len() as u64;
        if count < left as u64 {
            told.chunk(octets)?;
            self.place = Place::Chunk(left - octets.len() as u32);
            return Ok(octets.len());
        }
        let used = left as usize;
        told.chunk(&octets[..used])?;
        self.place = Place::ChunkEnd;
        Ok(used)
    }

    /// Takes the carriage return behind a chunk, and answers 1.
    fn take_return(&mut self, octet: u8) -> Result<usize, ResponseFault>
        requires { self.old.place ≡ Place.ChunkEnd }
        ensures ok { IfOk result (λ used. (used ≡ 1) × Hears self.old (octet ∷ []) [] self.new) }
        ensures on { OnOk result (self.new.place ≢ Place.Past) }
        ensures kept { OnOk result (self.new.held.keeps ≡ self.old.held.keeps) }
        ensures fault { IfErr result (λ fault. (rest : List ℕ) → Fails self.old (octet ∷ rest) fault) }
    {
        if octet != b'\r' {
            return Err(ResponseFault::Chunk);
        }
        self.place = Place::ChunkReturn;
        Ok(1)
    }

    /// Takes the line feed behind a chunk, and answers 1.
    fn take_feed(&mut self, octet: u8) -> Result<usize, ResponseFault>
        requires { self.old.place ≡ Place.ChunkReturn }
        ensures ok { IfOk result (λ used. (used ≡ 1) × Hears self.old (octet ∷ []) [] self.new) }
        ensures on { OnOk result (self.new.place ≢ Place.Past) }
        ensures kept { OnOk result (self.new.held.keeps ≡ self.old.held.keeps) }
        ensures fault { IfErr result (λ fault. (rest : List ℕ) → Fails self.old (octet ∷ rest) fault) }
    {
        if octet != b'\n' {
            return Err(ResponseFault::Chunk);
        }
        self.place = Place::Line(LINE_START);
        Ok(1)
    }

    /// Takes octets of trailers.
    fn take_trailers(&mut self, octets: &[u8], told: &mut Told) -> Result<usize, ResponseFault>
        requires place { self.old.place ≡ Place.Trailers }
        requires octets { 0 < length octets.now }
        ensures ok { IfOk result (λ used. (0 < used) × (used ≤ length octets.now) × GoesOn self.old told.old (take used octets.now) self.new told.new) }
        ensures ends { IfOk result (λ used. Ends self.old (take used octets.now) self.new) }
        ensures kept { OnOk result (self.new.held.keeps ≡ self.old.held.keeps) }
        ensures fault { IfErr result (λ fault. fault ≢ ResponseFault.Memory → Fails self.old octets.now fault) }
    {
        let held = mem::replace(&mut self.held, Vec::new(self.alloc));
        match read_trailers(self.alloc, &self.connections, held, octets, &mut self.spans) {
            Ok(TrailersRead::OnGoing(text)) => {
                self.held = text;
                Ok(octets.len())
            }
            Ok(TrailersRead::WholeAt(trailers, used)) => {
                told.end(trailers)?;
                self.place = Place::Past;
                Ok(used)
            }
            Err(fault) => Err(fault),
        }
    }

    /// Takes octets of a head, behind so many interim heads.
    fn take_head(
        &mut self,
        interims: u8,
        octets: &[u8],
        told: &mut Told,
    ) -> Result<usize, ResponseFault>
        requires place { self.old.place ≡ Place.Head interims }
        requires octets { 0 < length octets.now }
        ensures ok { IfOk result (λ used. (0 < used) × (used ≤ length octets.now) × GoesOn self.old told.old (take used octets.now) self.new told.new) }
        ensures ends { IfOk result (λ used. Ends self.old (take used octets.now) self.new) }
        ensures learns { IfOk result (λ used. Learns self.old (take used octets.now) self.new) }
        ensures fault { IfErr result (λ fault. fault ≢ ResponseFault.Memory → Fails self.old octets.now fault) }
    {
        let held = mem::replace(&mut self.held, Vec::new(self.alloc));
        match read_front(self.alloc, self.to_head, held, octets, &mut self.spans) {
            Ok(FrontRead::OnGoing(text)) => {
                self.held = text;
                Ok(octets.len())
            }
            Ok(FrontRead::InterimAt(head, used)) => {
                if interims >= MOST_INTERIMS {
                    return Err(ResponseFault::TooLong);
                }
                told.interim(head)?;
                self.place = Place::Head(interims + 1);
                Ok(used)
            }
            Ok(FrontRead::FinalAt(head, framing, connections, stays, used)) => {
                told.head(head)?;
                self.connections = connections;
                self.keeps = is_kept(stays, framing);
                self.begin_body(framing, told)?;
                Ok(used)
            }
            Err(fault) => Err(fault),
        }
    }

    /// Goes on behind a final head.
    fn begin_body(&mut self, framing: Framing, told: &mut Told) -> Result<(), ResponseFault>
        ensures ok { OnOk result (Begins framing self.old self.new told.old told.new) }
        ensures fault { IfErr result (λ fault. fault ≡ ResponseFault.Memory) }
    {
        match framing {
            Framing::Bodiless | Framing::Sized(0) => {
                told.done()?;
                self.place = Place::Past;
            }
            Framing::Sized(left) => self.place = Place::Sized(left),
            Framing::UntilEnd => self.place = Place::UntilEnd,
            Framing::Chunks => self.place = Place::Line(LINE_START),
        }
        Ok(())
    }
}
