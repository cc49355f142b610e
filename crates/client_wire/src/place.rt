//! Where the value of a field begins in the text of a head.
ghost use Rattle.std.specs.Prelude.{◌≡◌, ◌≤◌, length};
ghost use Rattle.client_wire.specs.ReplyFields.{behind, behind_lines, value_place};

use http_message::trim_start;

/// The bytes behind the first one that is this.
fn behind(text: &[u8], byte: u8) -> &[u8]
    ensures behind { result.now ≡ behind byte text.now }
    ensures shorter { length result.now ≤ length text.now }
{
    let mut rest = text;
    while let [first, others @ ..] = rest {
        rest = others;
        if *first == byte {
            return rest;
        }
    }
    rest
}

/// The bytes behind the first line, and so many further ones.
fn behind_lines(text: &[u8], count: usize) -> &[u8]
    ensures behind { result.now ≡ behind_lines count text.now }
    ensures shorter { length result.now ≤ length text.now }
{
    let mut rest = behind(text, b'\n');
    let mut index = 0;
    while index < count {
        rest = behind(rest, b'\n');
        index += 1;
    }
    rest
}

/// The offset in a head's text of the value of the field with this index.
#[tactic(auto, unfolding(crate::specs::ReplyFields::value_place))]
pub(crate) fn value_place(text: &[u8], index: usize) -> usize
    ensures place { result ≡ value_place text.now index }
    ensures within { result ≤ length text.now }
{
    let line = behind_lines(text, index);
    let value = trim_start(behind(line, b':'));
    text.len() - value.len()
}
