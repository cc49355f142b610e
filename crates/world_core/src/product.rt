//! The products of a run, and their documents.
ghost use Rattle.std.specs.Prelude.{◌≡◌, ◌++◌, IfOk, OnOk, decimal};
ghost use Rattle.world_core.specs.Products.{collection, product_id, product_text, IsProduct};

use itoa::Buffer;
use q_base::{Memory, Name};
use q_doc::Doc;
use std::alloc::{AllocError, Global};

/// The number of products.
pub const PRODUCTS: u32 = 2_000;

/// The collection of the products.
pub fn collection(alloc: Global) -> Result<Name, Memory>
    ensures { IfOk result (λ name. name ≡ collection) }
{
    match Name::read(alloc, b"products") {
        Ok(name) => Ok(name),
        Err(_) => Err(Memory),
    }
}

/// The id of a product.
pub fn product_id(alloc: Global, product: u32) -> Result<Name, Memory>
    ensures { IfOk result (λ name. name ≡ product_id product) }
{
    let text = id_text(alloc, product)?;
    match Name::read(alloc, &text) {
        Ok(name) => Ok(name),
        Err(_) => Err(Memory),
    }
}

/// The bytes of the id of a product.
fn id_text(alloc: Global, product: u32) -> Result<Vec<u8>, AllocError>
    ensures { IfOk result (λ text. text.items ≡ product_id product) }
{
    let mut text = Vec::from_slice(alloc, b"p")?;
    push_number(&mut text, product as u64)?;
    Ok(text)
}

/// The document of a product.
pub fn product(alloc: Global, product: u32, price: u32, stock: u32) -> Result<Doc, Memory>
    ensures { IfOk result (λ doc. IsProduct product price stock doc) }
{
    let text = product_text(alloc, product, price, stock)?;
    match Doc::read(alloc, &text) {
        Ok(doc) => Ok(doc),
        Err(_) => Err(Memory),
    }
}

/// The text of the document of a product.
fn product_text(alloc: Global, product: u32, price: u32, stock: u32) -> Result<Vec<u8>, AllocError>
    ensures { IfOk result (λ text. text.items ≡ product_text product price stock) }
{
    let mut text = Vec::from_slice(alloc, b"{\"cat\":")?;
    push_number(&mut text, (product % 10) as u64)?;
    text.extend_from_slice(b",\"name\":\"n")?;
    push_number(&mut text, product as u64)?;
    text.extend_from_slice(b"\",\"price\":")?;
    push_number(&mut text, price as u64)?;
    text.extend_from_slice(b",\"stock\":")?;
    push_number(&mut text, stock as u64)?;
    text.extend_from_slice(b"}")?;
    Ok(text)
}

/// Appends a number in decimal.
pub fn push_number(text: &mut Vec<u8>, number: u64) -> Result<(), AllocError>
    ensures { OnOk result (text.new.items ≡ text.old.items ++ decimal number) }
{
    let mut buffer = Buffer::new();
    text.extend_from_slice(buffer.format(number).as_bytes())
}
