//! Why a connection ends.

ghost use Rattle.std.specs.Prelude.{◌≡◌};
ghost use Rattle.event_handlers.specs.ending.Reasons.{code_in};

/// Why a connection ends with what came in.
#[derive(Clone, Copy, Debug, PartialEq, Eq)]
pub enum Ending {
    /// The client's side of it ended.
    Gone,
    /// The client's octets are no frames, by the code of this error: the preface is another, or a
    /// frame is longer than it may be (RFC 9113, sections 3.4 and 4.2).
    Breach(u32),
    /// A frame of the client is an error of the connection, by its code (RFC 9113, section 5.4.1).
    Frame(u32),
}

impl Ending {
    /// The code of the error, if there is one: then the client is told.
    pub fn code(self) -> Option<u32>
        ensures { result ≡ code_in self }
    {
        match self {
            Ending::Gone => None,
            Ending::Breach(code) => Some(code),
            Ending::Frame(code) => Some(code),
        }
    }
}
