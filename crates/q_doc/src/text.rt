//! A text, which is UTF-8.
ghost use Rattle.std.specs.Prelude.{string_bytes, ◌≡◌};
ghost use Rattle.std.specs.Str.{IsUtf8};

use std::marker::Model;

/// A text or a key. Its bytes are UTF-8, which `of` requires.
#[derive(Drop)]
pub struct Text {
    pub(crate) text: String,
}

impl Model for Text {
    ghost use Rattle.std.specs.Prelude.{ℕ, List, string_bytes};

    ghost Value = { List ℕ };

    ghost view = { λ a. string_bytes a.text };
}

impl Text {
    /// The text of these bytes, which are taken over.
    pub fn of(bytes: Vec<u8>) -> Text
        requires { IsUtf8 bytes.items }
        ensures { result ≡ bytes.items }
    {
        Text {
            text: unsafe { String::from_utf8_unchecked(bytes) },
        }
    }

    /// The bytes of the text.
    pub fn as_slice(&self) -> &[u8]
        ensures value { result.now ≡ self.now }
        ensures utf8 { IsUtf8 result.now }
    {
        self.text.as_str().as_bytes()
    }

    /// The text as a string slice.
    pub fn as_str(&self) -> &str
        ensures { result.now ≡ self.now }
    {
        self.text.as_str()
    }

    /// The bytes of the text, without a copy.
    pub fn into_vec(self) -> Vec<u8>
        ensures { result.items ≡ self }
    {
        self.text.into_bytes()
    }

    pub(crate) fn into_string(self) -> String
        ensures { string_bytes result ≡ self }
    {
        self.text
    }
}
