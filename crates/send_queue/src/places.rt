//! Streams that are kept, found by their ids.

ghost use Rattle.std.specs.Prelude.{◌≡◌, ◌<◌, None, length, remove, IfSome, IfNone};
ghost use Rattle.theory_responses.specs.State.{find};
ghost use Rattle.send_queue.specs.Places.{AreRising, IsAt, IsSplit, IsSplitBelow};

use crate::kept::Kept;

/// The place of the stream with this id, if it is kept.
pub fn place_of(kept: &[Kept], id: u32) -> Option<usize>
    requires { AreRising kept.now }
    ensures found { IfSome result (IsAt kept.now id) }
    ensures absent { IfNone result (find id kept.now ≡ None) }
{
    kept.binary_search_by_key(&id, |stream| stream.id()).ok()
}

/// The same, where it is likely at `guess`: that place is looked at first.
pub fn place_near(kept: &[Kept], id: u32, guess: usize) -> Option<usize>
    requires { AreRising kept.now }
    ensures found { IfSome result (IsAt kept.now id) }
    ensures absent { IfNone result (find id kept.now ≡ None) }
{
    if guess < kept.len() && kept[guess].id() == id {
        return Some(guess);
    }
    place_of(kept, id)
}

/// How many streams have an id that isn't above this one.
pub fn count_upto(kept: &[Kept], last: u32) -> usize
    requires { AreRising kept.now }
    ensures { IsSplit kept.now last result }
{
    kept.partition_point(|stream| stream.id() <= last)
}

/// How many streams have an id that is below this one.
pub fn count_below(kept: &[Kept], least: u32) -> usize
    requires { AreRising kept.now }
    ensures { IsSplitBelow kept.now least result }
{
    kept.partition_point(|stream| stream.id() < least)
}

/// Takes out the stream at a place.
pub fn remove_at(kept: &mut Vec<Kept>, place: usize)
    requires { place < length kept.old.items }
    ensures { kept.new.items ≡ remove kept.old.items place }
{
    let _over = kept.remove(place);
}
