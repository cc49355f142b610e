//! The queue of due indexes, the earliest first.
ghost use Rattle.std.specs.Prelude.{◌≡◌, ℕ, ◌+◌, ◌<◌, ◌≤◌, ◌∷◌, IfSome, IfNone, All};
ghost use Rattle.std.specs.List.Sorted.{IsPermutation};
ghost use Rattle.std.specs.BinaryHeap.{IsHeap, heap_items, heap_len, heap_capacity};
ghost use Rattle.expiring_map.specs.Due.{due, queue_cmp};

use std::cmp::Reverse;
use std::collections::BinaryHeap;

/// Seconds, each with an index that is due then.
pub type Queue = BinaryHeap<Reverse<(u64, usize)>>;

/// Pops the second and the index that are due first, if that is at or before the moment.
pub fn pop_due(queue: &mut Queue, moment: u64) -> Option<(u64, usize)>
    requires { IsHeap queue_cmp (heap_items queue.old) }
    ensures popped { IfSome result (λ d. IsPermutation (heap_items queue.old) (due d.0 d.1 ∷ heap_items queue.new)) }
    ensures past { IfSome result (λ d. d.0 ≤ moment) }
    ensures first { IfSome result (λ d. All (λ other. d.0 ≤ other.0.0) (heap_items queue.old)) }
    ensures fewer { IfSome result (λ d. heap_len queue.new + 1 ≡ heap_len queue.old) }
    ensures later { IfNone result (All (λ d. moment < d.0.0) (heap_items queue.new)) }
    ensures same { IfNone result (heap_items queue.new ≡ heap_items queue.old) }
    ensures same_len { IfNone result (heap_len queue.new ≡ heap_len queue.old) }
    ensures ordered { IsHeap queue_cmp (heap_items queue.new) }
    ensures capacity { heap_capacity queue.new ≡ heap_capacity queue.old }
{
    let Reverse((until, _)) = *queue.peek()?;
    if moment < until {
        return None;
    }
    match queue.pop() {
        Some(Reverse((until, index))) => Some((until, index)),
        None => None,
    }
}

/// Pushes an index that is due at a second. It allocates nothing.
pub fn push_due(queue: &mut Queue, until: u64, index: usize)
    requires ordered { IsHeap queue_cmp (heap_items queue.old) }
    requires space { heap_len queue.old < heap_capacity queue.old }
    ensures pushed { IsPermutation (due until index ∷ heap_items queue.old) (heap_items queue.new) }
    ensures len { heap_len queue.new ≡ heap_len queue.old + 1 }
    ensures ordered { IsHeap queue_cmp (heap_items queue.new) }
    ensures capacity { heap_capacity queue.old ≤ heap_capacity queue.new }
{
    match queue.push(Reverse((until, index))) {
        Ok(()) => {}
        Err(_) => unreachable!(),
    }
}
