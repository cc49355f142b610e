//! Keys, read from their texts.
ghost use Rattle.std.specs.Prelude.{◌≡◌, ◌⊎◌, Ok, Err, IfOk, nat_eq};
ghost use Rattle.std.specs.List.{common_prefix_len};
ghost use Rattle.query_normal.specs.declared.key.KeyShape.{KeyShape as AKey};
ghost use Rattle.query_normal.specs.Keys.{key_text, IsKey};
ghost use Rattle.query_lang.specs.KeyTexts.{read_key, key_of_text, record_of_text, query_of_text, query_of_parts, name_of, seen_parts};

use crate::key_parts::{QueryParts, after_sign, at_slash, query_parts};
use crate::query::{Fields, read_query};
use crate::refusal::QueryRefusal;
use q_base::{Memory, Name, NameRefusal};
use query_normal::{Key, normal};
use std::alloc::Global;
use std::error::Error;
use std::fmt;

/// Why a text is not that of a key.
#[derive(Clone, Copy, Debug, PartialEq, Eq)]
pub enum KeyRefusal {
    /// It is no key's text.
    BadKey {
        /// Where the text has all parts of a query's key, the offset of its first byte that is not as
        /// in that key's text; else 0.
        place: usize,
    },
    /// There was no memory.
    Memory,
}

impl fmt::Display for KeyRefusal {
    ghost use Rattle.std.specs.Prelude.{Some};
    ghost use Rattle.query_lang.specs.Sentence.{key_sentence};

    ghost output = { λ refusal. Some (key_sentence refusal) };

    fn fmt<W: fmt::Write>(&self, f: &mut fmt::Formatter<W>) -> fmt::Result {
        match self {
            KeyRefusal::BadKey { place } => {
                write!(f, "byte {place} is not as in the text of a key")
            }
            KeyRefusal::Memory => write!(f, "out of memory"),
        }
    }
}

impl Error for KeyRefusal {}

impl From<Memory> for KeyRefusal {
    ghost use Rattle.std.specs.Prelude.{◌≡◌};
    ghost use Rattle.query_lang.specs.declared.key_reader.KeyRefusal.TheVariants.{Memory};

    ghost from_gives = { λ _ e. e ≡ Memory };

    fn from(_refused: Memory) -> KeyRefusal {
        KeyRefusal::Memory
    }
}

/// The key of a text. A text is read only where it is the text of its key, so that a key has one text.
pub fn read_key(alloc: Global, text: &[u8]) -> Result<Key, KeyRefusal>
    // What is read has this text.
    ensures found { IfOk result (λ key. key_text key ≡ text.now) }
    // A key is read from its text, unless memory runs out.
    ensures only { (key : AKey) → IsKey key → key_text key ≡ text.now → (result ≡ Err KeyRefusal.Memory) ⊎ (result ≡ Ok key) }

    // The offset at which another text is refused.
    ensures exact { (result ≡ Err KeyRefusal.Memory) ⊎ (result ≡ read_key text.now) }
{
    read_text(alloc, text)
}

/// The key of a text, by the key whose parts it has.
#[tactic(auto, unfolding(crate::specs::KeyTexts::read_key))]
fn read_text(alloc: Global, text: &[u8]) -> Result<Key, KeyRefusal>
    ensures { (result ≡ Err KeyRefusal.Memory) ⊎ (result ≡ read_key text.now) }
{
    let Some(key) = key_of_text(alloc, text)? else {
        return Err(KeyRefusal::BadKey { place: 0 });
    };
    if key.text() == text {
        return Ok(key);
    }
    let place = common_len(text, key.text());
    Err(KeyRefusal::BadKey { place })
}

/// The key whose parts a text has.
#[tactic(auto, unfolding(crate::specs::KeyTexts::key_of_text))]
fn key_of_text(alloc: Global, text: &[u8]) -> Result<Option<Key>, Memory>
    ensures { IfOk result (λ key. key ≡ key_of_text text.now) }
{
    match after_sign(b"r/", text) {
        Some(names) => record_of_text(alloc, names),
        None => query_of_text(alloc, text),
    }
}

/// The key of a query whose parts a text has.
fn query_of_text(alloc: Global, text: &[u8]) -> Result<Option<Key>, Memory>
    ensures { IfOk result (λ key. key ≡ query_of_text text.now) }
{
    let Some(rest) = after_sign(b"q/", text) else {
        return Ok(None);
    };
    match query_parts(rest) {
        Some(parts) => query_of_parts(alloc, parts),
        None => Ok(None),
    }
}

/// The key of a record whose text follows `r/`.
#[tactic(auto, unfolding(crate::specs::KeyTexts::record_of_text))]
fn record_of_text(alloc: Global, text: &[u8]) -> Result<Option<Key>, Memory>
    ensures { IfOk result (λ key. key ≡ record_of_text text.now) }
{
    let Some((collection, id)) = at_slash(text) else {
        return Ok(None);
    };
    let Some(collection) = name_of(alloc, collection)? else {
        return Ok(None);
    };
    let Some(id) = name_of(alloc, id)? else {
        return Ok(None);
    };
    Ok(Some(Key::record(alloc, collection, id)?))
}

/// The key of the normal form of what the parts are read as.
#[tactic(auto, unfolding(crate::specs::KeyTexts::query_of_parts))]
fn query_of_parts(alloc: Global, parts: QueryParts<'_>) -> Result<Option<Key>, Memory>
    ensures { IfOk result (λ key. key ≡ query_of_parts (seen_parts parts.entry)) }
{
    let Some(collection) = name_of(alloc, parts.collection)? else {
        return Ok(None);
    };
    let fields = Fields {
        f: Some(parts.f),
        o: Some(parts.o),
        s: Some(parts.s),
        n: Some(parts.n),
        k: None,
    };
    match read_query(alloc, collection, &fields) {
        Ok((query, _)) => {
            let normal = normal(alloc, query)?;
            Ok(Some(Key::query(alloc, parts.kind, normal)?))
        }
        Err(QueryRefusal::Memory) => Err(Memory),
        Err(_) => Ok(None),
    }
}

/// The name that bytes are.
fn name_of(alloc: Global, bytes: &[u8]) -> Result<Option<Name>, Memory>
    ensures { IfOk result (λ name. name ≡ name_of bytes.now) }
{
    match Name::read(alloc, bytes) {
        Ok(name) => Ok(Some(name)),
        Err(NameRefusal::Memory) => Err(Memory),
        Err(_) => Ok(None),
    }
}

/// The number of bytes with which both texts begin.
fn common_len(a: &[u8], b: &[u8]) -> usize
    ensures { result ≡ common_prefix_len nat_eq a.now b.now }
{
    let len = a.len().min(b.len());
    'bytes: for offset in 0..len {
        if a[offset] != b[offset] {
            return offset;
        }
    }
    len
}
