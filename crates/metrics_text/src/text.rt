//! The text form of metrics that Prometheus reads, version 0.0.4.
//!
//! Each metric has a line of help, a line that says its kind, and a line for each of its values.

use itoa::Buffer;
use std::alloc::{AllocError, Global};

/// How a number changes.
#[derive(Clone, Copy, Debug, PartialEq, Eq)]
pub(crate) enum Kind {
    /// It only grows, until the program ends.
    Counter,
    /// It may be any number.
    Gauge,
}

/// What precedes each name.
const PREFIX: &[u8] = b"quaestor_";

/// How many microseconds a second has.
const MILLION: u64 = 1_000_000;

/// A text of metrics, as far as it is written.
#[derive(Drop)]
pub(crate) struct MetricsText {
    bytes: Vec<u8>,
}

impl MetricsText {
    /// No metric.
    pub(crate) fn new(alloc: Global) -> MetricsText {
        MetricsText {
            bytes: Vec::new(alloc),
        }
    }

    /// The text.
    pub(crate) fn into_bytes(self) -> Vec<u8> {
        self.bytes
    }

    /// Appends text.
    fn put(&mut self, text: &[u8]) -> Result<(), AllocError> {
        Ok(self.bytes.extend_from_slice(text)?)
    }

    /// Begins a metric.
    pub(crate) fn begin(&mut self, name: &str, kind: Kind, help: &str) -> Result<(), AllocError> {
        self.put(b"# HELP ")?;
        self.put(PREFIX)?;
        self.put(name.as_bytes())?;
        self.put(b" ")?;
        self.put(help.as_bytes())?;
        self.put(b"\n# TYPE ")?;
        self.put(PREFIX)?;
        self.put(name.as_bytes())?;
        match kind {
            Kind::Counter => self.put(b" counter\n"),
            Kind::Gauge => self.put(b" gauge\n"),
        }
    }

    /// What stands before a value of the metric that was begun.
    fn named(&mut self, name: &str, label: Label<'_>) -> Result<(), AllocError> {
        self.put(PREFIX)?;
        self.put(name.as_bytes())?;
        match label {
            Label::None => {}
            Label::Cause(cause) => {
                self.put(b"{cause=\"")?;
                self.put(cause.as_bytes())?;
                self.put(b"\"}")?;
            }
            Label::Request(route, status) => {
                self.put(b"{route=\"")?;
                self.put(route.as_bytes())?;
                self.put(b"\",status=\"")?;
                self.put(status.as_bytes())?;
                self.put(b"\"}")?;
            }
        }
        self.put(b" ")
    }

    /// A value of the metric that was begun, with one label or none.
    pub(crate) fn value(
        &mut self,
        name: &str,
        label: Label<'_>,
        text: &[u8],
    ) -> Result<(), AllocError> {
        self.named(name, label)?;
        self.put(text)?;
        self.put(b"\n")
    }

    /// A whole number of the metric that was begun.
    pub(crate) fn number(
        &mut self,
        name: &str,
        label: Label<'_>,
        number: u64,
    ) -> Result<(), AllocError> {
        let mut digits = Buffer::new();
        self.value(name, label, digits.format(number).as_bytes())
    }

    /// A metric of one number.
    pub(crate) fn one(
        &mut self,
        name: &str,
        kind: Kind,
        help: &str,
        number: u64,
    ) -> Result<(), AllocError> {
        self.begin(name, kind, help)?;
        self.number(name, Label::None, number)
    }

    /// A metric of one time, which is told in seconds.
    pub(crate) fn time(&mut self, name: &str, help: &str, micros: u64) -> Result<(), AllocError> {
        self.begin(name, Kind::Gauge, help)?;
        self.named(name, Label::None)?;
        let mut seconds = Buffer::new();
        self.put(seconds.format(micros / MILLION).as_bytes())?;
        // A one before the digits keeps their leading zeros.
        let mut rest = Buffer::new();
        let padded = rest.format(MILLION + micros % MILLION).as_bytes();
        self.put(b".")?;
        self.put(padded.get(1..).unwrap_or(b"0"))?;
        self.put(b"\n")
    }
}

/// What a value is told apart by.
#[derive(Clone, Copy, Debug)]
pub(crate) enum Label<'a> {
    None,
    /// Why.
    Cause(&'a str),
    /// The route and the status of requests.
    Request(&'a str, &'a str),
}
