//! The text of a date, made once for each second.
ghost use Rattle.std.specs.Prelude.{◌≡◌, ◌<◌, length};
ghost use Rattle.http_front.specs.Date.{IsDateOf};

use httpdate::HttpDate;
use q_base::Moment;
use std::marker::Model;

/// The text of one moment as HTTP writes it (RFC 9110, section 5.6.7). Contracts see both.
#[derive(Drop)]
pub struct DateText {
    at: u64,
    text: [u8; 29],
}

impl Model for DateText {
    ghost use Rattle.http_front.specs.Date.{Dated, IsDateOf};

    ghost Value = { Dated };

    ghost view = { λ d. record { at = d.at; text = d.text } };

    ghost invariant = { λ d. IsDateOf d.at d.text };
}

/// The text of a moment.
fn text_of(at: u64) -> [u8; 29]
    requires { at < 253402300800 }
    ensures { IsDateOf at result }
{
    match HttpDate::from_unix_secs(at) {
        Ok(date) => date.to_bytes(),
        Err(_) => unreachable!(),
    }
}

impl DateText {
    /// The text of the first moment of 1970.
    pub fn new() -> DateText
        ensures { result.at ≡ 0 }
    {
        DateText {
            at: 0,
            text: text_of(0),
        }
    }

    /// Turns to a moment. Where it is in the same second as the last one, nothing is made.
    pub fn turn_to(&mut self, moment: Moment)
        ensures at { self.new.at ≡ moment }
        ensures date { IsDateOf self.new.at self.new.text }
    {
        let at = moment.seconds();
        if at != self.at {
            self.text = text_of(at);
            self.at = at;
        }
    }

    /// The text, of 29 bytes.
    pub fn as_slice(&self) -> &[u8]
        ensures text { result.now ≡ self.now.text }
        ensures date { IsDateOf self.now.at self.now.text }
        ensures len { length result.now ≡ 29 }
    {
        &self.text
    }
}
