//! Records of active streams, at the keys of a slab.

ghost use Rattle.std.specs.Prelude.{◌≡◌, ◌==◌, ◌≤◌, false, Some, None, IsSome, IfSome, IfNone, IfOk, OnErr, slice_set, pos, ◌+ℤ◌, ◌≤ℤ◌};
ghost use Rattle.std.specs.List.{list_any};
ghost use Rattle.model.specs.Windows.{IsSize};
ghost use Rattle.model.specs.Limits.{greatest_window};
ghost use Rattle.slab.specs.Slab.{entries, HasRoomFor, with_value};
ghost use Rattle.streams.specs.Steps.{granted, taken};
ghost use Rattle.streams.specs.Sending.{AreTakable, stepped, HasRoom};
ghost use Rattle.theory_errors.specs.Judging.{state_in as state_kept};
ghost use Rattle.theory_errors.specs.Rows.{kept_in};
ghost use Rattle.stream_state.specs.Views.{state_in};
ghost use Rattle.streams.specs.Views.{outline_of};
ghost use Rattle.streams.specs.Records.{record_at, slot_in, IsHeld, IsStored, is_shifted_past};

use crate::course::Course;
use crate::entries::{Slot, StreamEntry};
use crate::live::Live;
use crate::steps::StreamStep;
use protocol::limits::GREATEST_WINDOW;
use slab::Slab;
use std::alloc::AllocError;
use stream_state::State;

/// The greatest size that a window may have (RFC 9113, section 6.9.1).
const GREATEST: i64 = GREATEST_WINDOW as i64;

/// The record of an active stream, with its id, which a look-up compares, since keys are used again.
#[derive(Debug, Drop)]
pub struct StreamRecord {
    pub id: u32,
    pub live: Live,
}

/// The stream with this id, if its record is at the key.
pub fn live_at(records: &Slab<StreamRecord>, key: u32, id: u32) -> Option<&Live>
    ensures found { IfSome result (λ live. record_at records.now.slots key ≡ Some (record { id = id; live = live.now })) }
    ensures absent { IfNone result ((live : Live) → record_at records.now.slots key ≡ Some (record { id = id; live = live }) → ⊥) }
{
    let Some(record) = records.get(key as usize) else {
        return None;
    };
    if record.id == id {
        Some(&record.live)
    } else {
        None
    }
}

/// The state of an entry's stream (RFC 9113, section 5.1).
pub fn state_of(records: &Slab<StreamRecord>, entry: StreamEntry) -> State
    requires { IsHeld records.now.slots entry.id entry.slot }
    ensures { state_in result ≡ state_kept (kept_in (slot_in records.now.slots entry.slot)) }
{
    let StreamEntry { id, slot } = entry;
    match slot {
        Slot::Live(key) => match live_at(records, key, id) {
            Some(live) => live.state(),
            None => State::Closed,
        },
        Slot::Over(true) => State::ResetByUs,
        Slot::Over(false) => State::Closed,
    }
}

/// Stores a record, and answers its key, a vacant one; no other record moves, and room is made only
/// where there is none. An `Err` says that memory was refused, as where the key hasn't 32 bits,
/// since all records before it would have to lie somewhere; it changes no record.
pub fn store(records: &mut Slab<StreamRecord>, stored: StreamRecord) -> Result<u32, AllocError>
    ensures ok { IfOk result (λ key. IsStored records.old.slots records.new.slots key stored) }
    ensures err { OnErr result (records.new.slots ≡ records.old.slots) }
    ensures stays { HasRoomFor records.old 1 → records.new.capacity ≡ records.old.capacity }
{
    let Ok(key) = u32::try_from(records.vacant_key()) else {
        return Err(AllocError);
    };
    records.reserve(1)?;
    records.insert_reserved(stored);
    Ok(key)
}

/// Removes the record at a key. Its place is vacant then, so that it is used again; no other record moves.
pub fn vacate(records: &mut Slab<StreamRecord>, key: u32)
    requires { IsSome (record_at records.old.slots key) }
    ensures { records.new.slots ≡ slice_set records.old.slots key None }
{
    records.remove(key as usize);
}

/// Grants octets to the stream of the record at a key.
pub fn grant_at(records: &mut Slab<StreamRecord>, key: u32, increment: u32)
    requires { IfSome (record_at records.old.slots key) (λ r. IsSize (r.live.balance +ℤ pos increment)) }
    ensures { IfSome (record_at records.old.slots key) (λ r. records.new ≡ with_value records.old key (record r { live = granted increment r.live })) }
{
    if let Some(record) = records.get_mut(key as usize) {
        record.live.grant(increment);
    }
}

/// Takes octets of DATA, or trailers, on the stream of the record at a key.
pub fn take_at(records: &mut Slab<StreamRecord>, key: u32, octets: u32, course: Course, ended: bool)
    requires { (octets == 0) ≡ false → IfSome (record_at records.old.slots key) (λ r. AreTakable octets r.live) }
    ensures { IfSome (record_at records.old.slots key) (λ r. records.new
        ≡ with_value records.old key (record r { live = taken octets (outline_of course) ended r.live })) }
{
    if let Some(record) = records.get_mut(key as usize) {
        record.live.take(octets, course, ended);
    }
}

/// Does a step on the stream of the record at a key.
pub fn step_at(records: &mut Slab<StreamRecord>, key: u32, step: StreamStep)
    requires { IfSome (record_at records.old.slots key) (λ r. HasRoom step r.live) }
    ensures { IfSome (record_at records.old.slots key) (λ r. records.new ≡ with_value records.old key (record r { live = stepped step r.live })) }
{
    if let Some(record) = records.get_mut(key as usize) {
        record.live.step(step);
    }
}

/// Whether the sending window of a record's stream is past the greatest with this first size.
fn is_shifted_past(kept: &StreamRecord, first: u32) -> bool
    requires { first ≤ greatest_window }
    ensures { result ≡ is_shifted_past first kept.now }
{
    i64::from(first) + kept.live.balance() > GREATEST
}

/// Whether that of one of them is.
pub fn shifts_past(records: &Slab<StreamRecord>, first: u32) -> bool
    requires { first ≤ greatest_window }
    ensures { result ≡ list_any (λ entry. is_shifted_past first entry.1) (entries records.now) }
{
    records
        .iter()
        .any(|(_, record)| is_shifted_past(record, first))
}
