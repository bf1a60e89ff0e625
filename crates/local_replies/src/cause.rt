//! Why a gateway answers a request itself.

ghost use Rattle.std.specs.Prelude.{◌≡◌};
ghost use Rattle.model.specs.Causes.{status_of, reset_code};
ghost use Rattle.local_replies.specs.Views.{cause_of};

use protocol::error_codes::{ENHANCE_YOUR_CALM, INTERNAL_ERROR};

/// Why the gateway answers a request itself, in place of an upstream (this project's profile;
/// statuses from RFC 9110, section 15).
#[derive(Clone, Copy, Debug, PartialEq, Eq)]
pub enum Cause {
    /// The fields of its head or of its trailers are too large: 431.
    LargeFields,
    /// It asks for a tunnel: 501.
    Tunnel,
    /// It expects something: 417.
    Expects,
    /// Its body is, or is to be, longer than the gateway takes: 413.
    LargeBody,
    /// No route matches it: 404.
    NoRoute,
    /// Its upstream failed, or answered what is no response: 502.
    BadAnswer,
}

impl Cause {
    /// The status of the reply (RFC 9110, section 15).
    pub fn status(self) -> u16
        ensures { result ≡ status_of (cause_of self) }
    {
        match self {
            Cause::LargeFields => 431,
            Cause::Tunnel => 501,
            Cause::Expects => 417,
            Cause::LargeBody => 413,
            Cause::NoRoute => 404,
            Cause::BadAnswer => 502,
        }
    }

    /// The error code of the reset that stands for the reply (RFC 9113, section 7), where the final
    /// head of a response is already out. The causes that come with a request's head come before
    /// any response, and have none.
    pub fn reset_code(self) -> Option<u32>
        ensures { result ≡ reset_code (cause_of self) }
    {
        match self {
            Cause::LargeFields | Cause::LargeBody => Some(ENHANCE_YOUR_CALM),
            Cause::BadAnswer => Some(INTERNAL_ERROR),
            Cause::Tunnel | Cause::Expects | Cause::NoRoute => None,
        }
    }
}
