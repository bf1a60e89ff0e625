//! The octets of a stream's DATA that wait for its upstream's side, in a queue.

ghost use Rattle.std.specs.Prelude.{◌≡◌, ◌+◌, ◌<◌, ◌≤◌, ◌^◌, [], length, MatchOption, OnOk, OnErr};
ghost use Rattle.theory_receive_windows.specs.Marks.{total, pop, released, push};
ghost use Rattle.window_credit.specs.Queued.{marks_of};

use std::alloc::{AllocError, Global};
use std::collections::VecDeque;
use std::marker::Model;

/// So many octets wait until so many are taken.
#[derive(Clone, Copy, Debug)]
struct Mark {
    /// How many have to be taken.
    mark: u64,
    /// How many wait.
    count: u64,
}

/// The octets of a stream's DATA that wait for its upstream's side. A clause sees their marks, the
/// oldest first; behind each wait some octets, and all octets together are fewer than 2^64.
#[derive(Drop)]
pub struct CreditQueue {
    marks: VecDeque<Mark>,
    octets: u64,
}

impl Model for CreditQueue {
    ghost use Rattle.std.specs.Prelude.{◌≡◌, List, ◌<◌, ◌^◌};
    ghost use Rattle.theory_receive_windows.specs.Marks.{Mark as MarkOfOctets, total};
    ghost use Rattle.window_credit.specs.Queued.{marks_of};
    ghost use Rattle.window_credit.specs.Counts.{AreSome};

    ghost Value = { List MarkOfOctets };

    ghost view = { λ waiting. marks_of waiting.marks.items };

    ghost invariant = { λ waiting. (total (marks_of waiting.marks.items) ≡ waiting.octets) × (waiting.octets < 2 ^ 64)
        × AreSome (marks_of waiting.marks.items) };
}

impl CreditQueue {
    /// Nothing waits.
    pub fn new(alloc: Global) -> CreditQueue
        ensures { result ≡ [] }
    {
        CreditQueue {
            marks: VecDeque::new(alloc),
            octets: 0,
        }
    }

    /// So many octets more, of which there are some, wait until so many are taken. An `Err` says
    /// that memory was refused; it changes nothing.
    #[tactic(auto, using(crate::proofs::Marked::marks_behind, crate::proofs::Marked::total_behind))]
    pub fn wait(&mut self, mark: u64, count: u64) -> Result<(), AllocError>
        requires some { 0 < count }
        requires fits { total self.now + count < 2 ^ 64 }
        ensures added { OnOk result (self.new ≡ push self.old mark count) }
        ensures unchanged { OnErr result (self.new ≡ self.old) }
    {
        self.marks.push_back(Mark { mark, count })?;
        self.octets += count;
        Ok(())
    }

    /// So many are taken: the octets whose marks are reached, which no longer wait. Each mark is
    /// dropped once, so that over all calls this costs no more than there are marks.
    pub fn reach(&mut self, taken: u64) -> u64
        ensures released { result ≡ released taken self.old }
        ensures left { self.new ≡ pop taken self.old }
    {
        let count = drop_all(&mut self.marks, taken);
        self.octets -= count;
        count
    }

    /// How many octets wait. There are no more marks than these.
    pub fn total(&self) -> u64
        ensures all { result ≡ total self.now }
        ensures few { length self.now ≤ result }
    {
        let CreditQueue { octets, .. } = self;
        *octets
    }
}

// The first of them, if its mark is reached.
fn drop_reached(marks: &mut VecDeque<Mark>, taken: u64) -> Option<u64>
    ensures { MatchOption result ((marks.new.items ≡ marks.old.items) × (pop taken (marks_of marks.old.items) ≡ marks_of marks.old.items)
        × (released taken (marks_of marks.old.items) ≡ 0)) (λ count. (length marks.new.items + 1 ≡ length marks.old.items)
        × (pop taken (marks_of marks.old.items) ≡ pop taken (marks_of marks.new.items))
        × (released taken (marks_of marks.old.items) ≡ count + released taken (marks_of marks.new.items))
        × (total (marks_of marks.old.items) ≡ count + total (marks_of marks.new.items))) }
{
    let mark = match marks.front() {
        Some(first) => *first,
        None => return None,
    };
    if taken < mark.mark {
        return None;
    }
    marks.pop_front();
    Some(mark.count)
}

// All of them whose marks are reached.
fn drop_all(marks: &mut VecDeque<Mark>, taken: u64) -> u64
    requires { total (marks_of marks.now.items) < 2 ^ 64 }
    ensures released { result ≡ released taken (marks_of marks.old.items) }
    ensures left { marks_of marks.new.items ≡ pop taken (marks_of marks.old.items) }
    ensures all { result + total (marks_of marks.new.items) ≡ total (marks_of marks.old.items) }
{
    let mut sum: u64 = 0;
    while let Some(count) = drop_reached(marks, taken) {
        sum += count;
    }
    sum
}
