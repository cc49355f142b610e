//! Worked requests, and their replies.

/// The words of a conversation in which each copy may be kept for a minute, and the clock stands at 100.
pub const MINUTE: [&str; 7] = [
    "pipe",
    "--clock",
    "100",
    "--ttl-low",
    "60",
    "--ttl-high",
    "60",
];

/// A document is put.
pub const PUT: &[u8] =
    b"PUT /v1/d/shop/p1 HTTP/1.1\r\nHost: a\r\nContent-Length: 7\r\n\r\n{\"a\":1}";

/// It is read.
pub const GET: &[u8] = b"GET /v1/d/shop/p1 HTTP/1.1\r\nHost: a\r\n\r\n";

/// The reply to the first, at the moment 100.
pub const STORED: &[u8] =
    b"HTTP/1.1 201 Created\r\nDate: Thu, 01 Jan 1970 00:01:40 GMT\r\nContent-Type: application/json\r\nContent-Length: 12\r\nCache-Control: no-store\r\nQuaestor-Commit: 1\r\n\r\n{\"commit\":1}";

/// The reply to the second, at the moment 100.
pub const FOUND: &[u8] =
    b"HTTP/1.1 200 OK\r\nDate: Thu, 01 Jan 1970 00:01:40 GMT\r\nContent-Type: application/json\r\nContent-Length: 7\r\nETag: \"1\"\r\nCache-Control: max-age=1\r\nQuaestor-Commit: 1\r\nQuaestor-Version: 1\r\nQuaestor-Until: 101\r\n\r\n{\"a\":1}";

/// Another document is put under its name.
pub const PUT_AGAIN: &[u8] =
    b"PUT /v1/d/shop/p1 HTTP/1.1\r\nHost: a\r\nContent-Length: 7\r\n\r\n{\"a\":2}";

/// All commits are matched.
pub const MATCH: &[u8] = b"POST /v1/match HTTP/1.1\r\nHost: a\r\n\r\n";

/// The page of the outdated keys is fetched.
pub const FILTER: &[u8] = b"GET /v1/filter HTTP/1.1\r\nHost: a\r\n\r\n";

/// The purges of outdated copies are asked for.
pub const PURGES: &[u8] = b"GET /v1/purges HTTP/1.1\r\nHost: a\r\n\r\n";

/// The reply to the second put, at the moment 100.
pub const STORED_AGAIN: &[u8] =
    b"HTTP/1.1 200 OK\r\nDate: Thu, 01 Jan 1970 00:01:40 GMT\r\nContent-Type: application/json\r\nContent-Length: 12\r\nCache-Control: no-store\r\nQuaestor-Commit: 2\r\n\r\n{\"commit\":2}";

/// The reply to the match of two commits, at the moment 100.
pub const MATCHED: &[u8] =
    b"HTTP/1.1 200 OK\r\nDate: Thu, 01 Jan 1970 00:01:40 GMT\r\nContent-Type: application/json\r\nContent-Length: 11\r\nCache-Control: no-store\r\n\r\n{\"front\":2}";

/// The head of the reply to a fetch, at the moment 100.
pub const PAGE_HEAD: &[u8] =
    b"HTTP/1.1 200 OK\r\nDate: Thu, 01 Jan 1970 00:01:40 GMT\r\nContent-Type: application/octet-stream\r\nContent-Length: 16414\r\nCache-Control: no-store\r\n\r\n";

/// The same of a page of 1,024 bits.
pub const SMALL_PAGE_HEAD: &[u8] =
    b"HTTP/1.1 200 OK\r\nDate: Thu, 01 Jan 1970 00:01:40 GMT\r\nContent-Type: application/octet-stream\r\nContent-Length: 158\r\nCache-Control: no-store\r\n\r\n";

/// The six positions of `r/shop/p1` among 2^17 bits.
pub const PLACES: [usize; 6] = [101_896, 6_848, 42_872, 78_896, 114_920, 19_872];

/// A request for no resource that there is.
pub const ELSEWHERE: &[u8] = b"GET /v2 HTTP/1.1\r\nHost: a\r\n\r\n";

/// The reply to it, at the moment 100.
pub const NO_ROUTE: &[u8] =
    b"HTTP/1.1 404 Not Found\r\nDate: Thu, 01 Jan 1970 00:01:40 GMT\r\nContent-Type: application/json\r\nContent-Length: 20\r\nCache-Control: no-store\r\n\r\n{\"error\":\"no_route\"}";

/// The same as the last reply of a connection.
pub const NO_ROUTE_LAST: &[u8] =
    b"HTTP/1.1 404 Not Found\r\nDate: Thu, 01 Jan 1970 00:01:40 GMT\r\nContent-Type: application/json\r\nContent-Length: 20\r\nCache-Control: no-store\r\nConnection: close\r\n\r\n{\"error\":\"no_route\"}";

/// The moment of the given clock, the greatest.
pub const GIVEN: u64 = 253_402_300_799;

/// Both replies, at the greatest moment.
pub const LAST: &[u8] =
    b"HTTP/1.1 201 Created\r\nDate: Fri, 31 Dec 9999 23:59:59 GMT\r\nContent-Type: application/json\r\nContent-Length: 12\r\nCache-Control: no-store\r\nQuaestor-Commit: 1\r\n\r\n{\"commit\":1}HTTP/1.1 200 OK\r\nDate: Fri, 31 Dec 9999 23:59:59 GMT\r\nContent-Type: application/json\r\nContent-Length: 7\r\nETag: \"1\"\r\nCache-Control: max-age=1\r\nQuaestor-Commit: 1\r\nQuaestor-Version: 1\r\nQuaestor-Until: 253402300800\r\n\r\n{\"a\":1}";

/// What is written for words that no command takes.
pub const USAGE: &[u8] = b"usage: quaestor pipe, serve, read or world\n";

/// A document is put, and its client expects `100 Continue` before it sends the body.
pub const PUT_EXPECTING: &[u8] =
    b"PUT /v1/d/shop/p1 HTTP/1.1\r\nHost: a\r\nExpect: 100-continue\r\nContent-Length: 7\r\n\r\n{\"a\":1}";

/// The client may send the body.
pub const CONTINUE: &[u8] = b"HTTP/1.1 100 Continue\r\n\r\n";

/// Fields of a reply that is not kept, and of the last one of a connection.
pub const NO_STORE: &[u8] = b"Cache-Control: no-store\r\n";

pub const CLOSED: &[u8] = b"Cache-Control: no-store\r\nConnection: close\r\n";

/// The numbers of an empty store.
pub const EMPTY: &[u8] = b"{\"clock\":100,\"commits\":0,\"front\":0}";
