//! Keys and their texts.
ghost use Rattle.std.specs.Prelude.{◌≡◌, ◌+◌, ◌<◌, ◌≤◌, ◌^◌, ◌++◌, length, codes, IfOk};
ghost use Rattle.std.specs.Cmp.{partial_equiv_from_equiv};
ghost use Rattle.query_normal.specs.Keys.{key_text, kind_text, same_kind, same_key, IsRecordKey};
ghost use Rattle.query_normal.specs.declared.text.TheConstants.{MAX_INLINE};

use crate::normal_query::Normal;
use crate::text::{KeyText, MAX_INLINE, put};
use q_base::{Memory, Name};
use query_core::{Kind, print_query};
use std::alloc::{AllocError, Global};
use std::hash::{Hash, Hasher};
use std::marker::Model;
use std::sync::Arc;

/// What a key names.
#[derive(Debug, Drop)]
pub enum KeyShape {
    /// One record of a collection.
    Record {
        /// The collection.
        collection: Name,
        /// The record's id in it.
        id: Name,
    },
    /// The result of a query, as its documents or as its ids.
    Query {
        /// What the result shows of its rows.
        kind: Kind,
        /// The query, in its normal form.
        normal: Normal,
    },
}

/// What all clones of a key share.
#[derive(Debug, Drop)]
struct Shared {
    shape: KeyShape,
    text: KeyText,
}

impl Model for Shared {
    ghost use Rattle.query_normal.specs.declared.key.KeyShape.{KeyShape};
    ghost use Rattle.std.specs.Coded.{codes};
    ghost use Rattle.q_doc.specs.Code.{tree_code};
    ghost use Rattle.query_core.specs.Code.{filter_code};

    ghost Value = { KeyShape };

    ghost coded = { Prim.hlevel (codes, tree_code, filter_code) };

    ghost use Rattle.query_normal.specs.Keys.{key_text, IsKey};
    ghost use Rattle.std.specs.Prelude.{◌≡◌};

    ghost view = { λ s. s.shape };

    ghost invariant = { λ s. record { text : s.text ≡ key_text s.shape; valid : IsKey s.shape } };
}

/// A key, which keeps its text. Contracts see its shape. Two keys are equal where their shapes are;
/// those of records are compared by their texts, which determine their names. Keys are hashed by
/// their texts. A clone shares what the key keeps, so that it takes no memory.
#[derive(Debug, Drop)]
pub struct Key {
    shared: Arc<Shared>,
}

impl Model for Key {
    ghost use Rattle.query_normal.specs.declared.key.KeyShape.{KeyShape};
    ghost use Rattle.std.specs.Coded.{codes};
    ghost use Rattle.q_doc.specs.Code.{tree_code};
    ghost use Rattle.query_core.specs.Code.{filter_code};

    ghost Value = { KeyShape };

    ghost coded = { Prim.hlevel (codes, tree_code, filter_code) };

    ghost use Rattle.std.specs.Arc.{arc_value};

    ghost view = { λ k. arc_value k.shared };
}

impl Shared {
    ghost use Rattle.query_normal.specs.Keys.{key_text, IsKey};

    /// The text of the key.
    fn text(&self) -> &[u8]
        ensures text { result.now ≡ key_text self.now }
        ensures valid { IsKey self.now }
    {
        self.text.as_slice()
    }

    /// What the key names.
    fn shape(&self) -> &KeyShape
        ensures { result.now ≡ self.now }
    {
        &self.shape
    }
}

impl Key {
    ghost use Rattle.query_normal.specs.Keys.{key_text, IsKey};

    /// The key of a record.
    pub fn record(alloc: Global, collection: Name, id: Name) -> Result<Key, Memory>
        ensures { IfOk result (λ key. key ≡ KeyShape.Record collection id) }
    {
        let text = record_text(alloc, &collection, &id)?;
        let shape = KeyShape::Record { collection, id };
        let shared = Arc::new(alloc, Shared { shape, text })?;
        Ok(Key { shared })
    }

    /// The key of the result of a query.
    pub fn query(alloc: Global, kind: Kind, normal: Normal) -> Result<Key, Memory>
        ensures { IfOk result (λ key. key ≡ KeyShape.Query kind normal) }
    {
        let text = KeyText::long(query_text(alloc, kind, &normal)?);
        let shape = KeyShape::Query { kind, normal };
        let shared = Arc::new(alloc, Shared { shape, text })?;
        Ok(Key { shared })
    }

    /// The key's text.
    pub fn text(&self) -> &[u8]
        ensures text { result.now ≡ key_text self.now }
        ensures valid { IsKey self.now }
    {
        self.shared.text()
    }

    /// What the key names.
    pub fn shape(&self) -> &KeyShape
        ensures { result.now ≡ self.now }
    {
        self.shared.shape()
    }
}

/// The text of a record's key: `r/COLLECTION/ID`. It allocates only where it has more than 30 bytes.
#[tactic(auto, unfolding(crate::specs::Keys::key_text))]
fn record_text(alloc: Global, collection: &Name, id: &Name) -> Result<KeyText, Memory>
    ensures { IfOk result (λ text. text ≡ key_text (KeyShape.Record collection.now id.now)) }
{
    let collection = collection.as_slice();
    let id = id.as_slice();
    if collection.len() + id.len() + 3 <= MAX_INLINE {
        return Ok(inline_text(collection, id));
    }
    long_text(alloc, collection, id)
}

/// The text of a record's key that is stored inline.
#[inline(always)]
fn inline_text(collection: &[u8], id: &[u8]) -> KeyText
    requires { length collection.now + length id.now + 3 ≤ MAX_INLINE }
    ensures { result ≡ codes "r/" ++ collection.now ++ codes "/" ++ id.now }
{
    let mut bytes = [0u8; MAX_INLINE];
    let mut at = put(&mut bytes, 0, b"r/");
    at = put(&mut bytes, at, collection);
    at = put(&mut bytes, at, b"/");
    at = put(&mut bytes, at, id);
    KeyText::inline(bytes, at)
}

/// The text of a record's key on the heap.
#[inline(never)]
fn long_text(alloc: Global, collection: &[u8], id: &[u8]) -> Result<KeyText, Memory>
    requires { length collection.now + length id.now + 3 < 2 ^ 64 }
    ensures { IfOk result (λ text. text ≡ codes "r/" ++ collection.now ++ codes "/" ++ id.now) }
{
    let mut text = Vec::with_capacity(alloc, collection.len() + id.len() + 3)?;
    text.extend_from_slice(b"r/")?;
    text.extend_from_slice(collection)?;
    text.extend_from_slice(b"/")?;
    text.extend_from_slice(id)?;
    Ok(KeyText::long(text))
}

/// The text of a query's key: `q/COLLECTION/KIND/f=FILTER;o=ORDER;s=SKIP;n=TAKE`.
fn query_text(alloc: Global, kind: Kind, normal: &Normal) -> Result<Vec<u8>, Memory>
    ensures { IfOk result (λ text. text.items ≡ key_text (KeyShape.Query kind normal.now)) }
{
    let query = normal.query();
    let printed = print_query(alloc, query)?;
    let name = query.collection.as_slice();
    let kind = kind_text(kind);
    let printed = printed.as_slice();
    let size = name.len() + kind.len();
    let mut text = Vec::with_capacity(alloc, printed.len().saturating_add(size).saturating_add(4))?;
    text.extend_from_slice(b"q/")?;
    text.extend_from_slice(name)?;
    text.push(b'/')?;
    text.extend_from_slice(kind)?;
    text.push(b'/')?;
    text.extend_from_slice(printed)?;
    Ok(text)
}

/// The word of a kind in the texts of keys.
fn kind_text(kind: Kind) -> &'static [u8]
    ensures { result.now ≡ kind_text kind }
{
    match kind {
        Kind::Objects => b"objects",
        Kind::Ids => b"ids",
    }
}

fn same_kind(a: Kind, b: Kind) -> bool
    ensures { result ≡ same_kind a b }
{
    match (a, b) {
        (Kind::Objects, Kind::Objects) => true,
        (Kind::Ids, Kind::Ids) => true,
        _ => false,
    }
}

impl Clone for KeyShape {
    ghost is_clone = { λ s t. s ≡ t };

    fn clone(&self) -> Result<KeyShape, AllocError> {
        match self {
            KeyShape::Record { collection, id } => Ok(KeyShape::Record {
                collection: collection.clone()?,
                id: id.clone()?,
            }),
            KeyShape::Query { kind, normal } => Ok(KeyShape::Query {
                kind: *kind,
                normal: normal.clone()?,
            }),
        }
    }
}

impl PartialEq for KeyShape {
    ghost use Rattle.query_normal.specs.Keys.{same_key};
    ghost use Rattle.query_normal.specs.SameKey.{same_key_equiv};

    ghost eq = { same_key };

    ghost laws = { partial_equiv_from_equiv same_key_equiv };

    fn eq(&self, other: &KeyShape) -> bool {
        match (self, other) {
            (
                KeyShape::Record { collection, id },
                KeyShape::Record {
                    collection: other_collection,
                    id: other_id,
                },
            ) => collection == other_collection && id == other_id,
            (
                KeyShape::Query { kind, normal },
                KeyShape::Query {
                    kind: other_kind,
                    normal: other_normal,
                },
            ) => same_kind(*kind, *other_kind) && normal == other_normal,
            _ => false,
        }
    }
}

impl Eq for KeyShape {
    ghost use Rattle.query_normal.specs.SameKey.{same_key_equiv};

    ghost laws = { same_key_equiv };
}

impl Clone for Key {
    ghost is_clone = { λ s t. s ≡ t };

    fn clone(&self) -> Result<Key, AllocError> {
        let shared = Arc::try_clone(&self.shared)?;
        Ok(Key { shared })
    }
}

impl PartialEq for Key {
    ghost use Rattle.query_normal.specs.Keys.{same_key};
    ghost use Rattle.query_normal.specs.SameKey.{same_key_equiv};

    ghost eq = { same_key };

    ghost laws = { partial_equiv_from_equiv same_key_equiv };

    fn eq(&self, other: &Key) -> bool {
        match (self.shape(), other.shape()) {
            // The texts of two keys of records determine their names.
            (KeyShape::Record { .. }, KeyShape::Record { .. }) => same_record(self, other),
            (shape, other_shape) => shape == other_shape,
        }
    }
}

/// Whether two keys are equal, the first of which is that of a record.
fn same_record(a: &Key, b: &Key) -> bool
    requires { IsRecordKey a.now }
    ensures { result ≡ same_key a.now b.now }
{
    a.text() == b.text()
}

impl Eq for Key {
    ghost use Rattle.query_normal.specs.SameKey.{same_key_equiv};

    ghost laws = { same_key_equiv };
}

impl Hash for Key {
    ghost use Rattle.std.specs.Hash as fed;
    ghost use Rattle.query_normal.specs.Keys.{key_text};
    ghost use Rattle.query_normal.specs.SameKey.{same_text};

    ghost hash_input = { λ k. fed.slice fed.u8 (key_text k) };

    ghost respects_eq = { same_text };

    fn hash<H: Hasher>(&self, state: &mut H) {
        self.text().hash(state);
    }
}
