//! The values and the segments that tokens are.
ghost use Rattle.std.specs.Prelude.{◌≡◌, IfOk};
ghost use Rattle.query_lang.specs.FilterReading.{segment_of, value_of};
ghost use Rattle.query_lang.specs.Refusals.{Takes};
ghost use Rattle.query_lang.specs.Seen.{seen_kind};

use crate::quoted::unescape;
use crate::refusal::Cause;
use crate::token::{Reserved, TokenKind};
use q_doc::{Node, NodeText, Shape, Text};
use std::alloc::{AllocError, Global};

/// The value that a token is.
pub(crate) fn value_of(alloc: Global, token: TokenKind<'_>) -> Result<Node, Cause>
    ensures { Takes (λ node. node) result (value_of (seen_kind token.entry)) }
{
    let shape = match token {
        TokenKind::Quoted(body) => { Shape::Text(NodeText::of(alloc, unescape(alloc, body)?)?) }
        TokenKind::Number(number) => Shape::Number(number),
        TokenKind::Word(Reserved::True) => Shape::Bool(true),
        TokenKind::Word(Reserved::False) => Shape::Bool(false),
        TokenKind::Word(Reserved::Null) => Shape::Null,
        TokenKind::BadNumber => return Err(Cause::BadNumber),
        _ => return Err(Cause::Syntax),
    };
    Ok(Node { shape })
}

/// The text of a segment, if the token is one.
pub(crate) fn segment_text(alloc: Global, token: TokenKind<'_>) -> Result<Option<Text>, AllocError>
    ensures { IfOk result (λ text. text ≡ segment_of (seen_kind token.entry)) }
{
    match token {
        TokenKind::Name(name) => Ok(Some(text_of(alloc, name)?)),
        TokenKind::Quoted(body) => Ok(Some(unescape(alloc, body)?)),
        _ => Ok(None),
    }
}

/// A clone of a text.
fn text_of(alloc: Global, text: &str) -> Result<Text, AllocError>
    ensures { IfOk result (λ cloned. cloned ≡ text.now) }
{
    let bytes = text.as_bytes();
    Ok(Text::of(Vec::from_slice(alloc, bytes)?))
}
