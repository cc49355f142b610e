//! Where a name stands in a map, looked for first where it likely stands.
ghost use Rattle.std.specs.Prelude.{◌≡◌, ◌<◌, true, Some, bytes_eq, is_some, IfSome, slice_get};
ghost use Rattle.std.specs.Map.{lookup};
ghost use Rattle.indexmap.specs.IndexMap.{index_map_len, index_of_by, values};

use indexmap::IndexMap;
use q_base::Name;

/// The index of a name, whatever `likely` is. Where the name stands at that index, it is not hashed.
#[inline]
pub fn index_of<V>(map: &IndexMap<Name, V>, likely: usize, name: &Name) -> Option<usize>
    ensures index { result ≡ index_of_by (bytes_eq name.now) map.now }
    ensures found { is_some result ≡ is_some (lookup (bytes_eq name.now) map.now.entries) }
    ensures within { IfSome result (λ index. index < index_map_len map.now) }
    ensures value { IfSome result (λ index. slice_get (values map.now) index ≡ lookup (bytes_eq name.now) map.now.entries) }
{
    if is_at(map, likely, name) {
        Some(likely)
    } else {
        hashed_index_of(map, name)
    }
}

/// Whether a name stands at an index.
#[inline]
fn is_at<V>(map: &IndexMap<Name, V>, index: usize, name: &Name) -> bool
    ensures { result ≡ true → index_of_by (bytes_eq name.now) map.now ≡ Some index }
{
    let _len = map.len();
    match map.get_index(index) {
        Some((key, _)) => key == name,
        None => false,
    }
}

/// The index of a name, by its hash. It stands alone so that the locals of the search are not set up
/// where no name is hashed.
#[inline(never)]
fn hashed_index_of<V>(map: &IndexMap<Name, V>, name: &Name) -> Option<usize>
    ensures index { result ≡ index_of_by (bytes_eq name.now) map.now }
    ensures found { is_some result ≡ is_some (lookup (bytes_eq name.now) map.now.entries) }
    ensures within { IfSome result (λ index. index < index_map_len map.now) }
    ensures value { IfSome result (λ index. slice_get (values map.now) index ≡ lookup (bytes_eq name.now) map.now.entries) }
{
    map.get_index_of(name)
}
