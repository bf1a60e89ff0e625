//! Entries of a ring, found by their hashes.
//!
//! The entries of a bucket are chained from the newest on: its newest is noted by the number that
//! it had when it was added, and each entry notes how many stand between it and the next one. So an
//! entry that goes off the end of the ring changes nothing. Numbers go round. A chain that numbers
//! of another time lead astray costs steps, and skips no entry.

ghost use Rattle.std.specs.Prelude.{ℕ, List, ◌≡◌, ◌+◌, ◌<◌, ◌^◌, ◌==◌, ◌∷◌, [], length, take, slice_get, OnOk};
ghost use Rattle.hpack_table.specs.Chaining.{IsChained, IsNextOfHash, bucket, hashes_of, step_from, entries_since, with_number};
ghost use Rattle.hpack_table.specs.declared.chains.Link.{Link};

use std::alloc::{AllocError, Global};
use std::collections::VecDeque;
use std::marker::Model;

/// The number of buckets. A table of 4,096 octets has at most 128 entries.
const BUCKETS: usize = 128;

/// An entry: its hash, and how many entries stand between it and the next older one of its bucket.
#[derive(Clone, Copy)]
pub struct Link {
    pub hash: u64,
    pub gap: u32,
}

/// Chains of a ring's entries. A clause sees their hashes, the newest first.
#[derive(Drop)]
pub struct Chains {
    /// The number of each bucket's newest entry; there is none before the first entry.
    newest: Vec<u32>,
    links: VecDeque<Link>,
    /// How many entries were added, and so the number of the newest.
    added: u32,
}

impl Model for Chains {
    ghost use Rattle.std.specs.Prelude.{ℕ, List};
    ghost use Rattle.hpack_table.specs.Chaining.{IsChained, hashes_of};

    ghost Value = { List ℕ };

    ghost view = { λ chains. hashes_of chains.links.items };

    ghost invariant = { λ chains. IsChained chains.newest.items chains.added chains.links.items };
}

impl Chains {
    /// No entries.
    pub fn new(alloc: Global) -> Chains
        ensures { result ≡ [] }
    {
        Chains {
            newest: Vec::new(alloc),
            links: VecDeque::new(alloc),
            added: 0,
        }
    }

    /// Adds an entry as the newest. An `Err` says that memory was refused.
    pub fn add(&mut self, hash: u64) -> Result<(), AllocError>
        ensures { OnOk result (self.new ≡ hash ∷ self.old) }
    {
        make_buckets(&mut self.newest, self.added)?;
        let gap = since(&self.newest, self.added, bucket_of(hash));
        self.links.push_front(Link { hash, gap })?;
        self.added = self.added.wrapping_add(1);
        note(&mut self.newest, bucket_of(hash), self.added);
        Ok(())
    }

    /// Lets go of the oldest entries, so that so many stay.
    pub fn keep(&mut self, count: usize)
        ensures { self.new ≡ take count self.old }
    {
        self.links.truncate(count);
    }

    /// The place of the newest entry with the hash, or one behind all entries.
    pub fn first(&self, hash: u64) -> usize
        ensures { IsNextOfHash self.now hash 0 result }
    {
        let place = since(&self.newest, self.added, bucket_of(hash));
        next_of(&self.links, hash, place as usize)
    }

    /// The place of the next older entry with the hash behind the entry at a place, or one behind all entries.
    pub fn after(&self, hash: u64, place: usize) -> usize
        requires { place < length self.now }
        ensures { IsNextOfHash self.now hash (place + 1) result }
    {
        let link = self.links[place];
        next_of(&self.links, hash, step(&link, hash, place))
    }
}

/// Makes the buckets, where there are none yet: each begins with the newest entry.
fn make_buckets(newest: &mut Vec<u32>, added: u32) -> Result<(), AllocError>
    ensures { (links : List Link) → IsChained newest.old.items added links → IsChained newest.new.items added links }
{
    if !newest.is_empty() {
        return Ok(());
    }
    newest.resize(BUCKETS, added)
}

/// The bucket of a hash.
fn bucket_of(hash: u64) -> usize
    ensures { result ≡ bucket hash }
{
    (hash % 128) as usize
}

/// How many entries were added behind the newest one of a bucket; none where it isn't known.
fn since(newest: &[u32], added: u32, place: usize) -> u32
    ensures { result ≡ entries_since added (slice_get newest.now place) }
{
    match newest.get(place) {
        Some(number) => added.wrapping_sub(*number),
        None => 0,
    }
}

/// Notes the number of a bucket's newest entry.
fn note(newest: &mut [u32], place: usize, number: u32)
    ensures { newest.new ≡ with_number newest.old place number }
{
    if place < newest.len() {
        newest[place] = number;
    }
}

/// The place that comes behind an entry's on the way to those with the hash.
fn step(link: &Link, hash: u64, place: usize) -> usize
    requires { place < 2 ^ 63 }
    ensures { result ≡ step_from link.now hash place }
{
    if bucket_of(link.hash) == bucket_of(hash) {
        place + 1 + link.gap as usize
    } else {
        place + 1
    }
}

/// The place of the next entry with the hash from a place on, or one behind all entries, where all before the place are
/// passed.
fn next_of(links: &VecDeque<Link>, hash: u64, place: usize) -> usize
    ensures { (newest : List ℕ) (added from : ℕ) → IsChained newest added links.now.items → IsNextOfHash (hashes_of links.now.items) hash from place
        → IsNextOfHash (hashes_of links.now.items) hash from result }
{
    let mut place = place;
    while let Some(link) = links.get(place) {
        if link.hash == hash {
            return place;
        }
        place = step(link, hash, place);
    }
    place
}
