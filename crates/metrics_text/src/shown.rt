//! What a request of somebody who watches asks for.
ghost use Rattle.std.specs.Prelude.{◌≡◌, if◌then◌else◌};
ghost use Rattle.metrics_text.specs.Shown.{line_of, reads, shown_of};
ghost use Rattle.metrics_text.specs.declared.shown.Shown.TheVariants as shown;

/// What a request asks for.
#[derive(Clone, Copy, Debug, PartialEq, Eq)]
pub enum Shown {
    /// Whether connections are taken.
    Health,
    /// The metrics.
    Metrics,
    /// One of both, by a method that it does not have.
    BadMethod,
    /// Nothing that is here.
    Unknown,
}

impl Shown {
    /// What a request asks for, by its method and its target.
    pub fn of(method: &[u8], target: &[u8]) -> Shown
        ensures { result ≡ shown_of method.now target.now }
    {
        if target == b"/v1/health".as_slice() {
            return Shown::Health.by(method);
        }
        if target == b"/v1/metrics".as_slice() {
            return Shown::Metrics.by(method);
        }
        Shown::Unknown
    }

    /// The same by this method, where it reads.
    fn by(self, method: &[u8]) -> Shown
        ensures { result ≡ (if reads method.now then self else shown.BadMethod) }
    {
        if reads(method) {
            self
        } else {
            Shown::BadMethod
        }
    }

    /// The status line of its answer. Where it is not served the server is ending, or out of memory.
    pub fn line(self, served: bool) -> &'static [u8]
        ensures { result.now ≡ line_of self served }
    {
        match (self, served) {
            (_, false) => b"HTTP/1.1 503 Service Unavailable\r\n",
            (Shown::Health, true) => b"HTTP/1.1 200 OK\r\n",
            (Shown::Metrics, true) => b"HTTP/1.1 200 OK\r\n",
            (Shown::BadMethod, true) => b"HTTP/1.1 405 Method Not Allowed\r\n",
            (Shown::Unknown, true) => b"HTTP/1.1 404 Not Found\r\n",
        }
    }

    /// The type of the answer's body.
    pub(crate) fn content_type(self) -> &'static [u8] {
        match self {
            Shown::Metrics => b"text/plain; version=0.0.4; charset=utf-8",
            _ => b"text/plain; charset=utf-8",
        }
    }
}

/// Whether a method reads.
fn reads(method: &[u8]) -> bool
    ensures { result ≡ reads method.now }
{
    method == b"GET".as_slice() || method == b"HEAD".as_slice()
}
