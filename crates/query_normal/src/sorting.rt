//! Filters and values put in order, each once.
ghost use Rattle.std.specs.Prelude.{◌≡◌, ◌≤◌, ◌++◌, ◌∷◌, length, map, take, drop, IfOk, OnOk};
ghost use Rattle.query_core.specs.Window.{placed, in_order};
ghost use Rattle.query_normal.specs.Normal.{filters_once, values_once, text_cmp};
ghost use Rattle.query_normal.specs.Printed.{ArePrinted, filter_of_printed};
ghost use Rattle.query_normal.specs.TextOrder.{begin_alike};

use crate::text_order::{are_alike, compare_texts};
use q_base::{Memory, Text};
use q_doc::{Node, compare};
use query_core::{Filter, print_filter};
use std::alloc::{AllocError, Global};

/// The most filters that are put in order by comparing each with those before it.
const MAX_FEW: usize = 8;

/// A filter with its printed text.
#[derive(Drop)]
struct Printed {
    text: Text,
    filter: Filter,
}

/// Filters in the order of their printed texts, each once.
pub(crate) fn filters_once(alloc: Global, filters: Vec<Filter>) -> Result<Vec<Filter>, Memory>
    ensures { IfOk result (λ kept. kept.items ≡ filters_once filters.items) }
{
    let mut sorted = in_order(alloc, filters)?;
    sorted.dedup();
    Ok(sorted)
}

/// Filters in the order of their printed texts. Many are printed, and few where they must be.
fn in_order(alloc: Global, filters: Vec<Filter>) -> Result<Vec<Filter>, Memory>
    ensures { IfOk result (λ sorted. sorted.items ≡ in_order text_cmp filters.items) }
{
    if filters.len() > MAX_FEW || begin_alike(&filters) {
        return many_in_order(alloc, filters);
    }
    few_in_order(alloc, filters)
}

/// Whether the first two filters are comparisons at one path by one operator, which their values alone
/// tell apart. Such a list is put in order faster by printing each filter once.
fn begin_alike(filters: &[Filter]) -> bool
    ensures { result ≡ begin_alike filters.now }
{
    match filters {
        [first, second, ..] => are_alike(first, second),
        _ => false,
    }
}

/// Few filters in the order of their printed texts.
fn few_in_order(alloc: Global, filters: Vec<Filter>) -> Result<Vec<Filter>, Memory>
    ensures { IfOk result (λ sorted. sorted.items ≡ in_order text_cmp filters.items) }
{
    let mut sorted = Vec::with_capacity(alloc, filters.len())?;
    for filter in filters {
        put_in_order(alloc, &mut sorted, filter)?;
    }
    Ok(sorted)
}

/// Puts a filter after those before which it does not come.
fn put_in_order(alloc: Global, sorted: &mut Vec<Filter>, filter: Filter) -> Result<(), Memory>
    ensures { OnOk result (sorted.new.items ≡ placed text_cmp sorted.old.items filter) }
{
    let index = place_of(alloc, sorted, &filter)?;
    sorted.insert(index, filter)?;
    Ok(())
}

/// The index of the first filter before which this one comes, or else the number of filters.
fn place_of(alloc: Global, sorted: &[Filter], filter: &Filter) -> Result<usize, Memory>
    ensures within { IfOk result (λ index. index ≤ length sorted.now) }
    ensures place { IfOk result (λ index. placed text_cmp sorted.now filter.now ≡ take index sorted.now ++ filter.now ∷ drop index sorted.now) }
{
    for index in 0..sorted.len() {
        if compare_texts(alloc, filter, &sorted[index])?.is_lt() {
            return Ok(index);
        }
    }
    Ok(sorted.len())
}

/// Many filters in the order of their printed texts.
fn many_in_order(alloc: Global, filters: Vec<Filter>) -> Result<Vec<Filter>, Memory>
    ensures { IfOk result (λ sorted. sorted.items ≡ in_order text_cmp filters.items) }
{
    let mut printed = with_texts(alloc, filters)?;
    printed.sort_by(|a, b| a.text.as_slice().cmp(b.text.as_slice()))?;
    Ok(without_texts(alloc, printed)?)
}

/// Each filter with its text.
fn with_texts(alloc: Global, filters: Vec<Filter>) -> Result<Vec<Printed>, Memory>
    ensures filters { IfOk result (λ all. map filter_of_printed all.items ≡ filters.items) }
    ensures texts { IfOk result (λ all. ArePrinted all.items) }
{
    let mut all = Vec::with_capacity(alloc, filters.len())?;
    for filter in filters {
        let text = print_filter(alloc, &filter)?;
        all.push(Printed { text, filter })?;
    }
    Ok(all)
}

/// The filters without their texts.
fn without_texts(alloc: Global, printed: Vec<Printed>) -> Result<Vec<Filter>, AllocError>
    ensures { IfOk result (λ all. all.items ≡ map filter_of_printed printed.items) }
{
    let mut all = Vec::with_capacity(alloc, printed.len())?;
    for item in printed {
        all.push(item.filter)?;
    }
    Ok(all)
}

/// Values in order, each once.
pub(crate) fn values_once(values: Vec<Node>) -> Result<Vec<Node>, AllocError>
    ensures { IfOk result (λ kept. kept.items ≡ values_once values.items) }
{
    let mut values = values;
    values.sort_by(|a, b| compare(Some(a), Some(b)))?;
    values.dedup();
    Ok(values)
}
