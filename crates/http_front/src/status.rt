//! The statuses of replies.
ghost use Rattle.std.specs.Prelude.{◌≡◌, ◌<◌, ◌≤◌, length, take};
ghost use Rattle.http_front.specs.Reply.{phrase_of, status_line};
ghost use Rattle.http_front.specs.ReplyText.{refusal, write_status};
ghost use Rattle.http_front.specs.declared.refused.Refused.TheVariants.{Framing};

use crate::put::{put, put_number};
use crate::refused::Refused;
use http::StatusCode;
use http_message::FramingRefusal;
use hub_model::Found;

/// The buffer that a status line is written into.
pub(crate) const STATUS_ROOM: usize = 63;

/// Writes the line of a status at the start of a buffer.
#[tactic(auto, using(crate::proofs::StatusLemmas::known_lines))]
#[inline(always)]
pub(crate) fn put_status(buffer: &mut [u8], status: StatusCode) -> usize
    requires { STATUS_ROOM ≤ length buffer.old }
    ensures end { result ≤ STATUS_ROOM }
    ensures text { take result buffer.new ≡ status_line status }
{
    match status {
        StatusCode::OK => put(buffer, 0, b"HTTP/1.1 200 OK\r\n"),
        StatusCode::CREATED => put(buffer, 0, b"HTTP/1.1 201 Created\r\n"),
        StatusCode::NOT_MODIFIED => put(buffer, 0, b"HTTP/1.1 304 Not Modified\r\n"),
        StatusCode::NOT_FOUND => put(buffer, 0, b"HTTP/1.1 404 Not Found\r\n"),
        _ => put_line(buffer, status),
    }
}

/// Writes the line of any status, with the phrase that the crate `http` gives to it.
#[tactic(auto, using(crate::proofs::StatusLemmas::status_pieces))]
#[inline(never)]
fn put_line(buffer: &mut [u8], status: StatusCode) -> usize
    requires { STATUS_ROOM ≤ length buffer.old }
    ensures end { result ≤ STATUS_ROOM }
    ensures text { take result buffer.new ≡ status_line status }
{
    let code = status.as_u16();
    let phrase = phrase_of(status);
    let mut at = put(buffer, 0, b"HTTP/1.1 ");
    at = put_number(buffer, at, u64::from(code));
    at = put(buffer, at, b" ");
    at = put(buffer, at, phrase);
    put(buffer, at, b"\r\n")
}

/// The status of a write that was accepted, by what it found.
pub(crate) fn write_status(put: bool, before: Found) -> StatusCode
    ensures { result ≡ write_status put before }
{
    match (put, before) {
        (true, Found::Missing) => StatusCode::CREATED,
        (true, Found::At(_)) | (false, _) => StatusCode::OK,
    }
}

/// The status of a refusal.
pub(crate) fn refusal_status(refused: Refused) -> StatusCode
    ensures { result ≡ (refusal refused).status }
{
    match refused {
        Refused::Framing(refused) => framing_status(refused),
        Refused::BadHost | Refused::BadTarget | Refused::BadTag | Refused::BadFilter(_) => {
            StatusCode::BAD_REQUEST
        }
        Refused::Misdirected => StatusCode::MISDIRECTED_REQUEST,
        Refused::NoRoute => StatusCode::NOT_FOUND,
        Refused::BadMethod(_) => StatusCode::METHOD_NOT_ALLOWED,
        Refused::NoLength => StatusCode::LENGTH_REQUIRED,
        Refused::BadEncoding => StatusCode::UNSUPPORTED_MEDIA_TYPE,
        Refused::BadDocument(_) => StatusCode::UNPROCESSABLE_ENTITY,
    }
}

/// The status of what cannot be framed.
fn framing_status(refused: FramingRefusal) -> StatusCode
    ensures { result ≡ (refusal (Framing refused)).status }
{
    match refused {
        FramingRefusal::BadHead | FramingRefusal::BadLength => StatusCode::BAD_REQUEST,
        FramingRefusal::HeadTooLarge => StatusCode::REQUEST_HEADER_FIELDS_TOO_LARGE,
        FramingRefusal::BadCoding => StatusCode::NOT_IMPLEMENTED,
        FramingRefusal::BodyTooLarge => StatusCode::PAYLOAD_TOO_LARGE,
    }
}

/// The phrase of a status.
fn phrase_of(status: StatusCode) -> &'static [u8]
    requires { status < 1000 }
    ensures phrase { result.now ≡ phrase_of status }
    ensures short { length result.now ≤ 31 }
{
    match status.canonical_reason() {
        Some(phrase) => phrase.as_bytes(),
        None => b"<unknown status code>",
    }
}
