//! Whether two results are equal.
ghost use Rattle.std.specs.Prelude.{◌≡◌};
ghost use Rattle.std.specs.Cmp.Lexicographic.{pointwise};
ghost use Rattle.result_kinds.specs.Same.{same_id, same_version, same_result};

use query_core::{Kind, Row};

/// Whether two windows have equal results of a kind: of kind objects the same ids with the same versions, of
/// kind ids the same ids, in the same order. No document is looked at, and it takes no memory.
pub fn same_result(kind: Kind, a: &[Row], b: &[Row]) -> bool
    ensures { result ≡ same_result kind a.now b.now }
{
    match kind {
        Kind::Objects => same_versions(a, b),
        Kind::Ids => same_ids(a, b),
    }
}

/// Whether the rows are of the same ids in the same versions.
fn same_versions(a: &[Row], b: &[Row]) -> bool
    ensures { result ≡ pointwise same_version a.now b.now }
{
    for i in 0..a.len().min(b.len()) {
        if !same_version(&a[i], &b[i]) {
            return false;
        }
    }
    a.len() == b.len()
}

fn same_version(a: &Row, b: &Row) -> bool
    ensures { result ≡ same_version a.now b.now }
{
    a.1 == b.1 && a.0 == b.0
}

/// Whether the rows are of the same ids.
fn same_ids(a: &[Row], b: &[Row]) -> bool
    ensures { result ≡ pointwise same_id a.now b.now }
{
    for i in 0..a.len().min(b.len()) {
        if a[i].0 != b[i].0 {
            return false;
        }
    }
    a.len() == b.len()
}
