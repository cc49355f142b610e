//! Orders in normal form: each path where it comes first.
ghost use Rattle.std.specs.Prelude.{◌≡◌, IfOk, OnOk};
ghost use Rattle.query_normal.specs.Normal.{normal_order};
ghost use Rattle.query_normal.specs.Repeats.{has_path, with_path};

use q_doc::Path;
use query_core::Order;
use std::alloc::{AllocError, Global};

/// The paths of an order, each where it comes first.
pub(crate) fn normal_order(alloc: Global, order: Order) -> Result<Order, AllocError>
    ensures { IfOk result (λ kept. kept ≡ normal_order order) }
{
    let paths = order.into_vec();
    let mut kept = Vec::with_capacity(alloc, paths.len())?;
    for item in paths {
        add_item(&mut kept, item)?;
    }
    Ok(Order::of(kept))
}

fn add_item(kept: &mut Vec<(Path, bool)>, item: (Path, bool)) -> Result<(), AllocError>
    ensures { OnOk result (kept.new.items ≡ with_path kept.old.items item) }
{
    if !has_path(kept, &item.0) {
        kept.push(item)?;
    }
    Ok(())
}

/// Whether a path is among these.
fn has_path(items: &[(Path, bool)], path: &Path) -> bool
    ensures { result ≡ has_path items.now path.now }
{
    items.iter().any(|item| item.0 == *path)
}
