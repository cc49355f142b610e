//! Who answers those who watch a server.
ghost use Rattle.metrics_text.specs.Shown.{IsShown};

use crate::shown::Shown;
use dialogue::Answers;
use http_message::{FramingRefusal, Request};
use itoa::Buffer;
use q_outside::{Failed, Sink, give_both};
use std::alloc::{AllocError, Global};

/// What is behind the status line of an answer for which there is no memory.
const NO_MEMORY: &[u8] = b"Content-Length: 0\r\nConnection: close\r\n\r\n";

/// What is behind the status line of one to a request that cannot be read.
const BAD_REQUEST: &[u8] = b"Content-Length: 0\r\nConnection: close\r\n\r\n";

/// What there is to be shown.
pub trait Shows {
    /// Whether the server takes no further connection.
    fn is_ending(&mut self) -> bool;

    /// The second since 1970, as it is told in the field Date: its text, where there is one.
    fn date(&mut self) -> Option<[u8; 29]>;

    /// The text of the metrics.
    fn metrics(&mut self) -> Result<Vec<u8>, AllocError>;
}

/// One who answers each request of those who watch by what there is to be shown. Each answer says that its
/// connection ends, so that none of them keeps the others waiting.
#[derive(Drop)]
pub struct Watcher<S: Shows + Drop> {
    alloc: Global,
    shows: S,
}

impl<S: Shows + Drop> Watcher<S> {
    /// One who shows this.
    pub fn new(alloc: Global, shows: S) -> Watcher<S> {
        Watcher { alloc, shows }
    }

    /// What is behind the status line of an answer, and whether it is served.
    fn behind(&mut self, shown: Shown, is_head: bool) -> (bool, Option<Vec<u8>>) {
        let served = shown != Shown::Health || !self.shows.is_ending();
        match self.text_behind(shown, served, is_head) {
            Ok(text) => (served, Some(text)),
            Err(_) => (false, None),
        }
    }

    /// The fields and the body of an answer. To HEAD it has no body.
    fn text_behind(
        &mut self,
        shown: Shown,
        served: bool,
        is_head: bool,
    ) -> Result<Vec<u8>, AllocError> {
        let body = self.body(shown, served)?;
        let mut text = Vec::new(self.alloc);
        if let Some(date) = self.shows.date() {
            text.extend_from_slice(b"Date: ")?;
            text.extend_from_slice(&date)?;
            text.extend_from_slice(b"\r\n")?;
        }
        if shown == Shown::BadMethod {
            text.extend_from_slice(b"Allow: GET, HEAD\r\n")?;
        }
        text.extend_from_slice(b"Content-Type: ")?;
        text.extend_from_slice(shown.content_type())?;
        text.extend_from_slice(b"\r\nContent-Length: ")?;
        let mut digits = Buffer::new();
        text.extend_from_slice(digits.format(body.len()).as_bytes())?;
        text.extend_from_slice(b"\r\nCache-Control: no-store\r\nConnection: close\r\n\r\n")?;
        if !is_head {
            text.extend_from_slice(&body)?;
        }
        Ok(text)
    }

    /// The body of an answer.
    fn body(&mut self, shown: Shown, served: bool) -> Result<Vec<u8>, AllocError> {
        match shown {
            Shown::Metrics => self.shows.metrics(),
            Shown::Health if served => Vec::from_slice(self.alloc, b"ok\n"),
            Shown::Health => Vec::from_slice(self.alloc, b"ending\n"),
            Shown::BadMethod => Vec::from_slice(self.alloc, b"bad method\n"),
            Shown::Unknown => Vec::from_slice(self.alloc, b"no route\n"),
        }
    }
}

impl<S: Shows + Drop> Answers for Watcher<S> {
    ghost can = { λ _. Unit {0} };

    ghost answers = { λ _ item _ text _. IsShown item text };

    ghost keeps = { λ _ _. Unit {0} };

    fn answer<K: Sink>(
        &mut self,
        sink: &mut K,
        request: &Request<'_>,
        _close: bool,
    ) -> Result<(), Failed> {
        let shown = Shown::of(request.method(), request.target());
        let is_head = request.method() == b"HEAD".as_slice();
        let (served, text) = self.behind(shown, is_head);
        match &text {
            Some(text) => give_both(sink, shown.line(served), text),
            None => give_both(sink, shown.line(false), NO_MEMORY),
        }
    }

    fn refuse<K: Sink>(
        &mut self,
        sink: &mut K,
        _refused: FramingRefusal,
        _head: bool,
    ) -> Result<(), Failed> {
        give_both(sink, b"HTTP/1.1 400 Bad Request\r\n", BAD_REQUEST)
    }

    ghost kept = { λ _. tt };

    ghost kept_on = { λ _ _ _ _ _. tt };
}
