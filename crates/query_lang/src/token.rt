//! The tokens of filters and orders.
ghost use Rattle.std.specs.Prelude.{◌≡◌};

use query_core::Op;

/// The words that no bare segment is.
#[derive(Clone, Copy, Debug, PartialEq, Eq)]
pub enum Reserved {
    And,
    Or,
    Not,
    In,
    Has,
    Exists,
    True,
    False,
    Null,
    Asc,
    Desc,
}

/// The signs.
#[derive(Clone, Copy, Debug, PartialEq, Eq)]
pub enum Sign {
    /// `=`, `!=`, `<`, `<=`, `>` or `>=`.
    Compare(Op),
    /// `(`
    Open,
    /// `)`
    Close,
    /// `[`
    OpenList,
    /// `]`
    CloseList,
    /// `,`
    Comma,
    /// `.`
    Dot,
}

/// What a token is.
#[derive(Clone, Copy)]
pub enum TokenKind<'a> {
    /// A reserved word.
    Word(Reserved),
    /// A word that is not reserved.
    Name(&'a str),
    /// A text in quotes, of which these are the bytes between the quotes, escapes and all.
    Quoted(&'a str),
    /// A number that fits 64 bits with a sign.
    Number(i64),
    /// A number with leading zeros, `-0`, or one that does not fit.
    BadNumber,
    /// A sign.
    Sign(Sign),
}

/// A token with its span, the slice of the text that it was read from, and the text after it.
#[derive(Clone, Copy)]
pub struct Token<'a> {
    pub kind: TokenKind<'a>,
    /// The number of bytes from where it begins to the end of the text.
    pub left: usize,
    pub span: &'a str,
    pub rest: &'a str,
}

/// What a text that ends inside a token would have become.
#[derive(Clone, Copy, Debug, PartialEq, Eq)]
pub enum Beginning {
    /// A text in quotes.
    Text,
    /// A number, after its `-`.
    Number,
    /// The sign `!=`, after its `!`.
    Unequal,
}

impl Beginning {
    ghost use Rattle.query_lang.specs.FilterReading.{is_text, is_unequal};

    /// Whether a text in quotes begins.
    pub(crate) fn is_text(self) -> bool
        ensures { result ≡ is_text self }
    {
        matches!(self, Beginning::Text)
    }

    /// Whether `!=` begins.
    pub(crate) fn is_unequal(self) -> bool
        ensures { result ≡ is_unequal self }
    {
        matches!(self, Beginning::Unequal)
    }
}

/// What comes next in a text, past blanks. An offset is given as the number of bytes from there to
/// the end.
#[derive(Clone, Copy)]
pub enum Lexeme<'a> {
    /// Nothing.
    End,
    /// A token.
    Found(Token<'a>),
    /// The beginning of a token, inside which the text ends.
    Unfinished { what: Beginning, left: usize },
    /// The beginning of a text in quotes that cannot continue at a byte: a raw control character, or a
    /// backslash that begins no escape.
    BadText { left: usize, left_there: usize },
    /// Bytes with which no token begins.
    Unknown { left: usize },
}
