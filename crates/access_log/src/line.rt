//! The lines of the access log.
//!
//! A line is formatted in place and takes no memory. It has at most 512 bytes: a longer target is cut, and
//! so is a longer method, and `...` says so. The bytes of a request are escaped, so that none of them ends
//! a line or a text.
ghost use Rattle.std.specs.Prelude.{◌≤◌};

use httpdate::HttpDate;
use itoa::Buffer;
use q_outside::Note;

/// How long a line is at most.
const ROOM: usize = 512;

/// Behind how many bytes of the line its method is cut.
const METHOD_END: usize = 150;

/// Behind how many bytes its target is cut. What is behind it takes at most 150.
const TARGET_END: usize = 350;

/// Behind how many bytes the reason is cut.
const WHY_END: usize = 480;

/// How lines are written.
#[derive(Clone, Copy, Debug, PartialEq, Eq)]
pub enum Form {
    /// The common log format of web servers, with the microseconds behind it, and why a request
    /// is refused or not served.
    Common,
    /// A JSON object for each line.
    Json,
}

/// What a line tells beside the note of a reply.
#[derive(Clone, Copy, Debug)]
pub struct Told<'a> {
    /// The client's address.
    pub client: &'a [u8],
    /// The second since 1970 in which the reply was given.
    pub second: u64,
    /// The bytes of the reply.
    pub bytes: u64,
    /// How long it took, in microseconds.
    pub micros: u64,
}

/// A line, or its beginning.
#[derive(Drop)]
pub struct Line {
    bytes: [u8; ROOM],
    len: usize,
    ghost within: { len ≤ 512 },
}

impl Line {
    /// The line of a reply, with its end.
    pub fn of(form: Form, note: &Note<'_>, told: Told<'_>) -> Line {
        let mut line = Line {
            bytes: [0; ROOM],
            len: 0,
        };
        match form {
            Form::Common => line.put_common(note, told),
            Form::Json => line.put_json(note, told),
        }
        line
    }

    /// Its bytes.
    pub fn as_bytes(&self) -> &[u8] {
        &self.bytes[..self.len]
    }

    /// The common log format: client, two names that nobody has, moment, request, status, bytes. Behind it
    /// the microseconds, and why the request is refused or not served, where it is.
    fn put_common(&mut self, note: &Note<'_>, told: Told<'_>) {
        self.put(told.client);
        self.put(b" - - [");
        self.put_moment(Form::Common, told.second);
        self.put(b"] \"");
        if note.method.is_empty() {
            self.put(b"-");
        } else {
            self.put_escaped(Form::Common, note.method, METHOD_END);
            self.put(b" ");
            self.put_escaped(Form::Common, note.target, TARGET_END);
            self.put(b" HTTP/1.1");
        }
        self.put(b"\" ");
        self.put_number(u64::from(note.status));
        self.put(b" ");
        self.put_number(told.bytes);
        self.put(b" ");
        self.put_number(told.micros);
        if !note.why.is_empty() {
            self.put(b" \"");
            self.put_escaped(Form::Common, note.why.as_bytes(), WHY_END);
            self.put(b"\"");
        }
        self.put(b"\n");
    }

    /// A JSON object.
    fn put_json(&mut self, note: &Note<'_>, told: Told<'_>) {
        self.put(b"{\"ts\":\"");
        self.put_moment(Form::Json, told.second);
        self.put(b"\",\"client\":\"");
        self.put(told.client);
        self.put(b"\",\"method\":\"");
        self.put_escaped(Form::Json, note.method, METHOD_END);
        self.put(b"\",\"target\":\"");
        self.put_escaped(Form::Json, note.target, TARGET_END);
        self.put(b"\",\"status\":");
        self.put_number(u64::from(note.status));
        self.put(b",\"bytes\":");
        self.put_number(told.bytes);
        self.put(b",\"us\":");
        self.put_number(told.micros);
        if !note.why.is_empty() {
            self.put(b",\"why\":\"");
            self.put_escaped(Form::Json, note.why.as_bytes(), WHY_END);
            self.put(b"\"");
        }
        self.put(b"}\n");
    }

    /// Appends a byte, where there is room.
    fn put_byte(&mut self, byte: u8) {
        if self.len < ROOM {
            self.bytes[self.len] = byte;
            self.len += 1;
        }
    }

    /// Appends bytes.
    fn put(&mut self, bytes: &[u8]) {
        for byte in bytes {
            self.put_byte(*byte);
        }
    }

    /// Appends a number.
    fn put_number(&mut self, number: u64) {
        let mut digits = Buffer::new();
        self.put(digits.format(number).as_bytes());
    }

    /// Appends bytes of a request, up to about this length of the line.
    fn put_escaped(&mut self, form: Form, bytes: &[u8], end: usize) {
        for byte in bytes {
            if self.len >= end {
                self.put(b"...");
                return;
            }
            if is_plain(*byte) {
                self.put_byte(*byte);
            } else {
                self.put_code(form, *byte);
            }
        }
    }

    /// Appends the code of a byte. In JSON it is that of the character with this number.
    fn put_code(&mut self, form: Form, byte: u8) {
        match form {
            Form::Common => self.put(b"\\x"),
            Form::Json => self.put(b"\\u00"),
        }
        self.put_byte(digit_of(byte >> 4));
        self.put_byte(digit_of(byte & 15));
    }

    /// Appends a moment: `30/Nov/2026:13:30:00 +0000`, or `2026-11-30T13:30:00Z` in JSON. Behind the year
    /// 9999 it is `-`.
    fn put_moment(&mut self, form: Form, second: u64) {
        let Ok(date) = HttpDate::from_unix_secs(second) else {
            self.put(b"-");
            return;
        };
        // Mon, 30 Nov 2026 13:30:00 GMT
        let text = date.to_bytes();
        match form {
            Form::Common => {
                self.put(&text[5..7]);
                self.put(b"/");
                self.put(&text[8..11]);
                self.put(b"/");
                self.put(&text[12..16]);
                self.put(b":");
                self.put(&text[17..25]);
                self.put(b" +0000");
            }
            Form::Json => {
                self.put(&text[12..16]);
                self.put(b"-");
                self.put(month_of(text[9], text[10]));
                self.put(b"-");
                self.put(&text[5..7]);
                self.put(b"T");
                self.put(&text[17..25]);
                self.put(b"Z");
            }
        }
    }
}

/// Whether a byte stands in a line as it is: it is printable ASCII, and neither a quote nor a backslash.
fn is_plain(byte: u8) -> bool {
    (0x20..0x7f).contains(&byte) && byte != b'"' && byte != b'\\'
}

/// A hexadecimal digit.
fn digit_of(value: u8) -> u8 {
    if value < 10 {
        b'0' + value
    } else {
        b'a'.wrapping_add(value.wrapping_sub(10))
    }
}

/// The number of a month, by the last two letters of its name.
fn month_of(second: u8, third: u8) -> &'static [u8] {
    match (second, third) {
        (b'a', b'n') => b"01",
        (b'e', b'b') => b"02",
        (b'a', b'r') => b"03",
        (b'p', b'r') => b"04",
        (b'a', b'y') => b"05",
        (b'u', b'n') => b"06",
        (b'u', b'l') => b"07",
        (b'u', b'g') => b"08",
        (b'e', b'p') => b"09",
        (b'c', b't') => b"10",
        (b'o', b'v') => b"11",
        _ => b"12",
    }
}
