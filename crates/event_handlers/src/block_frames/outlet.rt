//! How requests go out.

/// How requests go out.
#[derive(Clone, Copy, Debug, PartialEq, Eq)]
pub struct Outlet {
    /// Each at once, before its body came, which goes out as it comes; or whole.
    pub at_once: bool,
    /// On connections that are kept for further requests (RFC 9112, section 9.3); or each says that
    /// its connection is closed behind it.
    pub keep: bool,
}
