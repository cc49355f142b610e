//! When `accept` may be called again.

use std::io;

/// When `accept` may be called again after an error.
#[derive(Clone, Copy, Debug, PartialEq, Eq)]
pub(crate) enum Again {
    /// At once. The error is that of one connection, which ended before it was taken, or was lost.
    AtOnce,
    /// After a while. There is no descriptor or memory for a further connection, and connections that
    /// end release some.
    Later,
    /// Never. The listener has failed.
    Never,
}

/// When `accept` may be called again after this error, by Linux's numbers. On Linux `accept` also passes
/// on the errors that are pending on the new connection (accept(2), "Error handling").
pub(crate) fn again_after(error: &io::Error) -> Again {
    match error.raw_os_error() {
        // EPERM, from a firewall; EINTR.
        Some(1 | 4) => Again::AtOnce,
        // ENONET, EPROTO, ENOPROTOOPT, EOPNOTSUPP.
        Some(64 | 71 | 92 | 95) => Again::AtOnce,
        // ENETDOWN, ENETUNREACH, ECONNABORTED, ECONNRESET, ETIMEDOUT, EHOSTDOWN, EHOSTUNREACH.
        Some(100 | 101 | 103 | 104 | 110 | 112 | 113) => Again::AtOnce,
        // EAGAIN, ENOMEM, ENFILE, EMFILE, ENOBUFS.
        Some(11 | 12 | 23 | 24 | 105) => Again::Later,
        Some(_) => Again::Never,
        // An error of std's own, as for an address that it cannot read.
        None => Again::AtOnce,
    }
}
