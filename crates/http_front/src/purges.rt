//! Lists of purges: their length, and giving them by way of a buffer. Only the numbers are written apart.
ghost use Rattle.std.specs.Prelude.{◌≡◌, ◌≤◌, ◌++◌, codes, length, take};
ghost use Rattle.q_outside.specs.Ends.{Gave};
ghost use Rattle.hub_model.specs.Reply.{told_of};
ghost use Rattle.http_front.specs.Bodies.{key_json, keys_json, purges_end, purges_start, up_to_greatest};
ghost use Rattle.http_front.specs.Buffered.{Adds};
ghost use Rattle.http_front.specs.ReplyText.{purges_body};

use crate::body::{NUMBERS_CAPACITY, number_body};
use crate::buffered::add;
use crate::put::{put, put_number};
use crate::quoted::{add_quoted, quoted_len};
use hub_model::PurgeReply;
use q_outside::{Failed, Sink, give_all};
use query_normal::Key;

/// The length of a list of purges, or the greatest number where that is less.
pub(crate) fn purges_len(reply: &PurgeReply) -> usize
    ensures { result ≡ up_to_greatest (length (purges_body (told_of reply.now))) }
{
    let mut numbers = [0; NUMBERS_CAPACITY];
    let start = purges_start(reply, &mut numbers).len();
    let end = purges_end(reply, &mut numbers).len();
    let keys = keys_len(reply.keys.as_slice());
    keys.saturating_add(start).saturating_add(end)
}

/// Gives what waits in a buffer and then a list of purges, which is written through the buffer.
pub(crate) fn give_purges<K: Sink>(
    sink: &mut K,
    buffer: &mut [u8],
    at: usize,
    reply: &PurgeReply,
) -> Result<(), Failed>
    requires { at ≤ length buffer.old }
    ensures { Gave (K.at sink.old) (K.at sink.new) (take at buffer.old ++ purges_body (told_of reply.now)) result }
{
    let end = add_purges(sink, buffer, at, reply)?;
    give_all(sink, &buffer[..end])
}

/// Adds a list of purges to what waits in a buffer.
fn add_purges<K: Sink>(
    sink: &mut K,
    buffer: &mut [u8],
    at: usize,
    reply: &PurgeReply,
) -> Result<usize, Failed>
    requires { at ≤ length buffer.old }
    ensures { Adds (K.at sink.old) (K.at sink.new) (take at buffer.old) (purges_body (told_of reply.now)) buffer.new result }
{
    let mut numbers = [0; NUMBERS_CAPACITY];
    let started = add(sink, buffer, at, purges_start(reply, &mut numbers))?;
    let listed = add_keys(sink, buffer, started, reply.keys.as_slice())?;
    add(sink, buffer, listed, purges_end(reply, &mut numbers))
}

/// The start of a list of purges, up to its first key.
fn purges_start<'a>(reply: &PurgeReply, buffer: &'a mut [u8]) -> &'a [u8]
    requires { NUMBERS_CAPACITY ≤ length buffer.old }
    ensures { result.now ≡ purges_start reply.now }
{
    let mut at = put(buffer, 0, b"{\"from\":");
    at = put_number(buffer, at, reply.from);
    at = put(buffer, at, b",\"front\":");
    at = put_number(buffer, at, reply.front);
    at = put(buffer, at, b",\"keys\":[");
    &buffer[..at]
}

/// Its end, after its last key.
fn purges_end<'a>(reply: &PurgeReply, buffer: &'a mut [u8]) -> &'a [u8]
    requires { NUMBERS_CAPACITY ≤ length buffer.old }
    ensures { result.now ≡ purges_end reply.now }
{
    number_body(b"],\"last\":", reply.last, b"}", buffer)
}

/// The length of the texts of keys with commas between them, or the greatest number where that is less.
fn keys_len(keys: &[Key]) -> usize
    ensures { result ≡ up_to_greatest (length (keys_json keys.now)) }
{
    let Some((first, rest)) = keys.split_first() else {
        return 0;
    };
    let mut len = key_len(first);
    for key in rest {
        len = len.saturating_add(key_len(key)).saturating_add(1);
    }
    len
}

/// The length of the text of a key in quotes, or the greatest number where that is less.
fn key_len(key: &Key) -> usize
    ensures { result ≡ up_to_greatest (length (key_json key.now)) }
{
    quoted_len(key.text())
}

/// Adds the texts of keys with commas between them.
fn add_keys<K: Sink>(
    sink: &mut K,
    buffer: &mut [u8],
    at: usize,
    keys: &[Key],
) -> Result<usize, Failed>
    requires { at ≤ length buffer.old }
    ensures { Adds (K.at sink.old) (K.at sink.new) (take at buffer.old) (keys_json keys.now) buffer.new result }
{
    let Some((first, rest)) = keys.split_first() else {
        return Ok(at);
    };
    let mut end = add_key(sink, buffer, at, first)?;
    for key in rest {
        end = add_next(sink, buffer, end, key)?;
    }
    Ok(end)
}

/// Adds the text of a key.
fn add_key<K: Sink>(sink: &mut K, buffer: &mut [u8], at: usize, key: &Key) -> Result<usize, Failed>
    requires { at ≤ length buffer.old }
    ensures { Adds (K.at sink.old) (K.at sink.new) (take at buffer.old) (key_json key.now) buffer.new result }
{
    add_quoted(sink, buffer, at, key.text())
}

/// Adds a comma and the text of a key.
fn add_next<K: Sink>(sink: &mut K, buffer: &mut [u8], at: usize, key: &Key) -> Result<usize, Failed>
    requires { at ≤ length buffer.old }
    ensures { Adds (K.at sink.old) (K.at sink.new) (take at buffer.old) (codes "," ++ key_json key.now) buffer.new result }
{
    let parted = add(sink, buffer, at, b",")?;
    add_key(sink, buffer, parted, key)
}
