//! The products of a run, and their documents.
ghost use Rattle.std.specs.Prelude.{◌≡◌, IfOk, Ok, Some};
ghost use Rattle.crash_core.specs.Products.{IsPriced, IsPut, price_text};
ghost use Rattle.query_normal.specs.declared.key.KeyShape.TheVariants.{Record};
ghost use Rattle.world_core.specs.Products.{collection, product_id};

use hub_model::Change;
use q_base::Memory;
use q_doc::Doc;
use query_normal::Key;
use std::alloc::{AllocError, Global};
use world_core::{collection, product_id, push_number};

/// The change that puts the document of a product, with this price.
pub(crate) fn put_of(alloc: Global, product: u32, price: u32) -> Result<Change, Memory>
    ensures { IfOk result (IsPut product price) }
{
    Ok(Change {
        collection: collection(alloc)?,
        id: product_id(alloc, product)?,
        document: Some(priced(alloc, price)?),
    })
}

/// The key of the record of a product.
pub(crate) fn key_of(alloc: Global, product: u32) -> Result<Key, Memory>
    ensures { IfOk result (λ key. key ≡ Record collection (product_id product)) }
{
    Key::record(alloc, collection(alloc)?, product_id(alloc, product)?)
}

/// The document with a price.
fn priced(alloc: Global, price: u32) -> Result<Doc, Memory>
    ensures { IfOk result (IsPriced price) }
{
    let text = price_text(alloc, price)?;
    match Doc::read(alloc, &text) {
        Ok(doc) => Ok(doc),
        Err(_) => Err(Memory),
    }
}

/// The text of the document with a price.
fn price_text(alloc: Global, price: u32) -> Result<Vec<u8>, AllocError>
    ensures { IfOk result (λ text. text.items ≡ price_text price) }
{
    let mut text = Vec::from_slice(alloc, b"{\"price\":")?;
    push_number(&mut text, price as u64)?;
    text.extend_from_slice(b"}")?;
    Ok(text)
}
