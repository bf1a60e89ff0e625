//! What the gateway does on an active stream, and what comes of its upstream's answer.

ghost use Rattle.std.specs.Prelude.{◌≡◌};
ghost use Rattle.streams.specs.Sending.{ends_by};

/// One such step.
#[derive(Clone, Copy, Debug, PartialEq, Eq)]
pub enum StreamStep {
    /// A header block went out (RFC 9113, section 8.1).
    Head { is_final: bool, ends: bool },
    /// So many octets of DATA went out (RFC 9113, section 6.1).
    Data { octets: u32, ends: bool },
    /// So many octets were given back (RFC 9113, section 6.9.1).
    GivenBack { octets: u32 },
    /// Its upstream's answer failed.
    Failed,
}

impl StreamStep {
    /// Whether the gateway ends its stream with it (RFC 9113, section 5.1).
    pub fn ends(self) -> bool
        ensures { result ≡ ends_by self }
    {
        match self {
            StreamStep::Head { ends, .. } => ends,
            StreamStep::Data { ends, .. } => ends,
            StreamStep::GivenBack { .. } => false,
            StreamStep::Failed => false,
        }
    }
}
