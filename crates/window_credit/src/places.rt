//! Streams that are kept, found by their ids.

ghost use Rattle.std.specs.Prelude.{◌≡◌, None, IfSome, IfNone};
ghost use Rattle.window_credit.specs.Sides.{find};
ghost use Rattle.window_credit.specs.Places.{AreRising, IsAt};

use crate::stream_credit::StreamCredit;

/// The place of the stream with this id, if it is kept.
pub fn place_of(sides: &[StreamCredit], id: u32) -> Option<usize>
    requires { AreRising sides.now }
    ensures found { IfSome result (IsAt sides.now id) }
    ensures absent { IfNone result (find id sides.now ≡ None) }
{
    sides.binary_search_by_key(&id, |side| side.id()).ok()
}
