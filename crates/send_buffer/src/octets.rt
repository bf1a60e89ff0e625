//! Octets of a body that wait.

ghost use Rattle.std.specs.Prelude.{◌≡◌, ◌+◌, ◌-◌, ◌≤◌, [], ◌++◌, length, take, drop, IfOk, OnOk, OnErr};
ghost use Rattle.model.specs.Octets.{is_empty};

use bytes::BytesMut;
use circular_buffer::HeapCircularBuffer;
use std::alloc::{AllocError, Global};
use std::marker::Model;

/// The most octets that a ring has room for.
const LARGEST: usize = 65536;

/// Where octets stand.
#[derive(Drop)]
enum Store {
    /// One piece as it came: what was sent goes from its front, and nothing is moved.
    Piece(BytesMut),
    /// What came in several pieces.
    Ring(HeapCircularBuffer<u8>),
}

/// Octets of a body that weren't sent.
#[derive(Drop)]
pub struct Octets {
    alloc: Global,
    store: Store,
}

impl Model for Octets {
    ghost use Rattle.std.specs.Prelude.{ℕ, List};
    ghost use Rattle.send_buffer.specs.Waiting.{waiting_in, IsKept};

    ghost Value = { List ℕ };

    ghost view = { λ octets. waiting_in octets.store };

    ghost invariant = { λ octets. IsKept octets.store };
}

/// A ring's room for so many octets: twice as many, or 65,536 where that is less.
fn room_for(count: usize) -> usize
    requires { count ≤ 65536 }
    ensures enough { count ≤ result }
    ensures few { result ≤ 65536 }
{
    (count * 2).min(LARGEST)
}

/// A ring with octets and others behind them.
fn ring_of(alloc: Global, front: &[u8], back: &[u8]) -> Result<HeapCircularBuffer<u8>, AllocError>
    requires { length front.now + length back.now ≤ 65536 }
    ensures octets { IfOk result (λ ring. ring.items ≡ front.now ++ back.now) }
    ensures few { IfOk result (λ ring. ring.capacity ≤ 65536) }
{
    let mut ring = HeapCircularBuffer::with_capacity(alloc, room_for(front.len() + back.len()))?;
    ring.fill_from_slice(front);
    ring.fill_from_slice(back);
    Ok(ring)
}

/// A ring is made larger where it has no room for so many octets more.
fn make_room(
    alloc: Global,
    ring: &mut HeapCircularBuffer<u8>,
    more: usize,
) -> Result<(), AllocError>
    requires within { length ring.old.items + more ≤ 65536 }
    requires few { ring.old.capacity ≤ 65536 }
    ensures octets { ring.new.items ≡ ring.old.items }
    ensures few { ring.new.capacity ≤ 65536 }
    ensures room { OnOk result (more ≤ ring.new.capacity - length ring.new.items) }
    ensures err { OnErr result (ring.new ≡ ring.old) }
{
    let count = ring.len() + more;
    if count <= ring.capacity() {
        return Ok(());
    }
    let mut larger = HeapCircularBuffer::with_capacity(alloc, room_for(count))?;
    let (front, back) = ring.as_slices();
    larger.fill_from_slice(front);
    larger.fill_from_slice(back);
    *ring = larger;
    Ok(())
}

impl Octets {
    /// No octets.
    pub fn new(alloc: Global) -> Octets
        ensures { result ≡ [] }
    {
        Octets {
            alloc,
            store: Store::Piece(BytesMut::new(alloc)),
        }
    }

    /// How many wait.
    pub fn len(&self) -> usize
        ensures { result ≡ length self.now }
    {
        match &self.store {
            Store::Piece(piece) => piece.len(),
            Store::Ring(ring) => ring.len(),
        }
    }

    /// Whether none waits.
    pub fn is_empty(&self) -> bool
        ensures { result ≡ is_empty self.now }
    {
        self.len() == 0
    }

    /// So many octets in front, or all that wait where they are fewer, as they lie: the second part
    /// is behind the first.
    pub fn front(&self, most: usize) -> (&[u8], &[u8])
        ensures { result.0.now ++ result.1.now ≡ take most self.now }
    {
        match &self.store {
            Store::Piece(piece) => {
                let all = piece.as_slice();
                (&all[..most.min(all.len())], &[])
            }
            Store::Ring(ring) => {
                let (front, back) = ring.as_slices();
                let behind = most.saturating_sub(front.len());
                (
                    &front[..most.min(front.len())],
                    &back[..behind.min(back.len())],
                )
            }
        }
    }

    /// More octets behind these. Where none waits they are kept as they came; else all stand in a
    /// ring, which is made here, and made larger where it has no room, unless they are more than
    /// 65,536 together. An `Err` says that memory was refused; it changes nothing.
    pub fn add(&mut self, more: Vec<u8>) -> Result<(), AllocError>
        ensures ok { OnOk result (self.new ≡ self.old ++ more.items) }
        ensures err { OnErr result (self.new ≡ self.old) }
    {
        if self.is_empty() {
            self.store = Store::Piece(BytesMut::from_vec(more));
            return Ok(());
        }
        if more.is_empty() {
            return Ok(());
        }
        if more.len() > LARGEST.saturating_sub(self.len()) {
            let all = self.join(&more)?;
            self.store = Store::Piece(BytesMut::from_vec(all));
            return Ok(());
        }
        self.put_in_ring(&more)
    }

    /// These and more octets in one piece.
    fn join(&self, more: &[u8]) -> Result<Vec<u8>, AllocError>
        ensures { IfOk result (λ all. all.items ≡ self.now ++ more.now) }
    {
        let (front, back) = self.front(self.len());
        let mut all = Vec::with_capacity(self.alloc, front.len() + back.len())?;
        all.extend_from_slice(front)?;
        all.extend_from_slice(back)?;
        all.extend_from_slice(more)?;
        Ok(all)
    }

    /// These and more octets stand in a ring then.
    fn put_in_ring(&mut self, more: &[u8]) -> Result<(), AllocError>
        requires { length self.old + length more.now ≤ 65536 }
        ensures ok { OnOk result (self.new ≡ self.old ++ more.now) }
        ensures err { OnErr result (self.new ≡ self.old) }
    {
        match &mut self.store {
            Store::Piece(piece) => {
                let ring = ring_of(self.alloc, piece.as_slice(), more)?;
                self.store = Store::Ring(ring);
            }
            Store::Ring(ring) => {
                make_room(self.alloc, ring, more.len())?;
                ring.fill_from_slice(more);
            }
        }
        Ok(())
    }

    /// None waits any more.
    pub fn clear(&mut self)
        ensures { self.new ≡ [] }
    {
        self.store = Store::Piece(BytesMut::new(self.alloc));
    }

    /// So many octets in front were sent.
    pub fn pass(&mut self, count: usize)
        requires { count ≤ length self.old }
        ensures { self.new ≡ drop count self.old }
    {
        match &mut self.store {
            Store::Piece(piece) => piece.advance(count),
            Store::Ring(ring) => {
                let left = ring.len() - count;
                ring.truncate_front(left);
            }
        }
    }
}
