//! Freeing unused capacity.
ghost use Rattle.std.specs.Prelude.{◌≡◌};

/// Frees the unused capacity, where it is more than this many elements. To free it may move them to
/// another block.
pub(crate) fn trim_capacity<T>(elements: &mut Vec<T>, most_unused: usize)
    ensures { elements.new.items ≡ elements.old.items }
{
    if elements.capacity().saturating_sub(elements.len()) > most_unused {
        elements.shrink_to_fit();
    }
}
