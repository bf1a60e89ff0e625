//! Why a step goes no further.

ghost use Rattle.std.specs.Prelude.{◌≡◌};
ghost use Rattle.event_handlers.specs.declared.halt.Halt.TheVariants.{Memory};

use std::alloc::AllocError;

/// Why a step goes no further.
#[derive(Clone, Copy, Debug, PartialEq, Eq)]
pub enum Halt {
    /// Memory was refused; what is kept and the outputs are of no use any more.
    Memory,
    /// The connection was ended in place of a frame, since too many octets for the client were
    /// untaken; what is kept is of no use any more.
    Over,
}

impl From<AllocError> for Halt {
    ghost from_gives = { λ _ stop. stop ≡ Memory };

    fn from(_error: AllocError) -> Halt {
        Halt::Memory
    }
}
