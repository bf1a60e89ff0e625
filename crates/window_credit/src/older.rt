//! Streams whose connections were given to others since, and whose octets wait still.

ghost use Rattle.std.specs.Prelude.{◌≡◌, ◌<◌, ◌^◌};
ghost use Rattle.window_credit.specs.Sides.{octets_behind, taking_behind, released_behind};

use crate::stream_credit::StreamCredit;

/// So many octets of a connection are taken by now: those of all such streams' DATA that waited for
/// them, which no longer do.
pub fn take_from_all(sides: &mut Vec<StreamCredit>, number: u32, taken: u64) -> u64
    requires { octets_behind sides.old.items < 2 ^ 64 }
    ensures released { result ≡ released_behind number taken sides.old.items }
    ensures kept { sides.new.items ≡ taking_behind number taken sides.old.items }
{
    let mut sum: u64 = 0;
    for side in sides.iter_mut() {
        sum += side.take_behind(number, taken);
    }
    sum
}
