//! The limits that the peer sets on an encoder's table (RFC 7541, section 4.2).

ghost use Rattle.std.specs.Prelude.{◌≡◌, ◌==◌, min, if◌then◌else◌, Some, None};
ghost use Rattle.std.specs.Option.{ForSome};
ghost use Rattle.header_blocks.specs.Encoding.{limits_with};
ghost use Rattle.header_blocks.specs.Due.{AreInRange, IsDue};

use protocol::limits::LARGEST_TABLE_SIZE;

/// The least and the last of limits, each counted as at most 4,096.
#[derive(Clone, Copy)]
pub struct Limits {
    pub least: u32,
    pub last: u32,
}

/// The maxima with which a block begins, in their order, and the one that is reached.
#[derive(Clone, Copy)]
pub struct SizeUpdates {
    pub least: Option<u32>,
    pub last: Option<u32>,
    pub reached: u32,
}

/// The limits before, and one more.
pub fn limits_and(before: Option<Limits>, limit: u32) -> Limits
    ensures limits { result ≡ limits_with before limit }
    ensures range { ForSome before AreInRange → AreInRange result }
{
    let last = limit.min(LARGEST_TABLE_SIZE);
    let least = match before {
        Some(limits) => limits.least.min(last),
        None => last,
    };
    Limits { least, last }
}

/// What a block begins with, where the table has this maximum and these limits came since the block before.
pub fn due_maxima(maximum: u32, limits: Option<Limits>) -> SizeUpdates
    requires { ForSome limits AreInRange }
    ensures { IsDue maximum limits result }
{
    let Some(limits) = limits else {
        return SizeUpdates {
            least: None,
            last: None,
            reached: maximum,
        };
    };
    SizeUpdates {
        least: unless_reached(maximum, limits.least.min(maximum)),
        last: unless_reached(limits.least.min(maximum), limits.last),
        reached: limits.last,
    }
}

/// A maximum, if it isn't the one that is reached.
fn unless_reached(reached: u32, maximum: u32) -> Option<u32>
    ensures { result ≡ (if maximum == reached then None else Some maximum) }
{
    if maximum == reached {
        None
    } else {
        Some(maximum)
    }
}
