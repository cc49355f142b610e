//! What a request says of the looks of its reply.
ghost use Rattle.std.specs.Prelude.{◌≡◌};
ghost use Rattle.http_front.specs.Asks.{shape_of, unframed_shape};

use crate::origins::{Leave, leave_of, page_of};
use http_message::Request;

/// What a reply looks like, beside what it tells.
#[derive(Drop)]
pub struct Shape<'a> {
    /// The method is PUT: what was missing before is created.
    pub put: bool,
    /// It is HEAD: the reply has no body.
    pub head: bool,
    /// It is OPTIONS, and origins are named: a page asks what it may send.
    pub asks: bool,
    /// What the reply says of the pages that may read it.
    pub leave: Leave<'a>,
}

impl<'a> Shape<'a> {
    /// What the reply to bytes that cannot be framed looks like, where a text names these origins.
    pub fn unframed(origins: &'a [u8], head: bool) -> Shape<'a>
        ensures { result ≡ unframed_shape origins.now head }
    {
        Shape {
            put: false,
            head,
            asks: false,
            leave: leave_of(origins, None),
        }
    }
}

/// What the reply to a request looks like, where a text names these origins.
pub fn shape_of<'a>(origins: &'a [u8], request: &Request<'_>) -> Shape<'a>
    ensures { result ≡ shape_of origins.now request.now }
{
    let method = request.method();
    let put = method == b"PUT".as_slice();
    let head = method == b"HEAD".as_slice();
    if origins.is_empty() {
        return Shape {
            put,
            head,
            asks: false,
            leave: Leave::none(),
        };
    }
    Shape {
        put,
        head,
        asks: method == b"OPTIONS".as_slice(),
        leave: leave_of(origins, page_of(request)),
    }
}
