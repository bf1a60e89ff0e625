//! Why a text is no configuration.

ghost use Rattle.std.specs.Prelude.{◌≡◌};
ghost use Rattle.configuration.specs.Lines.{line_of};

use std::alloc::AllocError;
use std::error::Error;
use std::fmt;

/// A key of a configuration.
#[derive(Clone, Copy, Debug, PartialEq, Eq, Drop)]
pub enum Key {
    /// How header blocks are written.
    Policy,
    /// How bodies are passed on.
    Passing,
    /// The most octets of a request's body.
    MaxBody,
    /// The most octets of a response's body.
    MaxResponse,
    /// Whether upstream connections are kept.
    Keep,
    /// How many of them may be idle.
    Idle,
    /// The octets of receiving windows.
    Window,
    /// The routes.
    Route,
    /// The authority of a route's requests.
    Authority,
    /// What the paths of a route's requests begin with.
    Prefix,
    /// The address of a route's upstream.
    Upstream,
}

/// Why a text is no configuration.
#[derive(Clone, Copy, Debug, PartialEq, Eq, Drop)]
pub enum ConfigFault {
    /// It isn't TOML.
    NotToml,
    /// This is the first key that is wrong.
    Bad(Key),
    /// All known keys are right, and there is another.
    UnknownKey,
    /// No memory was left.
    Memory,
}

impl ConfigFault {
    /// What a program says of it, in one line without its end: `config: not TOML`,
    /// `config: bad KEY` with the name of the key, `config: unknown key`, or `config: no memory`.
    pub fn line(self) -> &'static str
        ensures { result.now ≡ line_of self }
    {
        match self {
            ConfigFault::NotToml => "config: not TOML",
            ConfigFault::Bad(Key::Policy) => "config: bad policy",
            ConfigFault::Bad(Key::Passing) => "config: bad passing",
            ConfigFault::Bad(Key::MaxBody) => "config: bad max_body",
            ConfigFault::Bad(Key::MaxResponse) => "config: bad max_response",
            ConfigFault::Bad(Key::Keep) => "config: bad keep",
            ConfigFault::Bad(Key::Idle) => "config: bad idle",
            ConfigFault::Bad(Key::Window) => "config: bad window",
            ConfigFault::Bad(Key::Route) => "config: bad route",
            ConfigFault::Bad(Key::Authority) => "config: bad authority",
            ConfigFault::Bad(Key::Prefix) => "config: bad prefix",
            ConfigFault::Bad(Key::Upstream) => "config: bad upstream",
            ConfigFault::UnknownKey => "config: unknown key",
            ConfigFault::Memory => "config: no memory",
        }
    }
}

impl fmt::Display for ConfigFault {
    fn fmt<W: fmt::Write>(&self, f: &mut fmt::Formatter<W>) -> fmt::Result {
        f.write_str(self.line())
    }
}

impl Error for ConfigFault {}

impl From<AllocError> for ConfigFault {
    ghost use Rattle.std.specs.Prelude.{◌≡◌};
    ghost use Rattle.configuration.specs.declared.faults.ConfigFault.TheVariants.{Memory};

    ghost from_gives = { λ _ fault. fault ≡ Memory };

    fn from(_error: AllocError) -> ConfigFault {
        ConfigFault::Memory
    }
}
