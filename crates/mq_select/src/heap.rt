//! A binary min-heap by place, in the order of the entries of an index map: the children of entry
//! `i` are entries `2i + 1` and `2i + 2`, and no place is greater than its children's. So the least
//! place is at index 0, and each type's is found by its hash.

ghost use Rattle.std.specs.Prelude.{◌≡◌, ◌<◌, not, true};
ghost use Rattle.std.specs.Ordering.{int_eq};
ghost use Rattle.indexmap.specs.IndexMap.{get, index_map_len};
ghost use Rattle.mq_select.specs.FirstPlaces.{IsLeastAt};
ghost use Rattle.mq_select.specs.Heap.{place_at, type_at, IsGreaterAbove, IsHeap, IsLeastEntry};
ghost use Rattle.mq_select.specs.Heap.{IsHeapBut, IsHeapDownTo, IsHeapOf, IsHeapUpTo};
ghost use Rattle.mq_select.specs.Heap.{IsLeastUnder, IsLesserUnder};

use indexmap::IndexMap;

/// The place of the first message of each type.
pub(crate) type Heap = IndexMap<i64, u64>;

/// The place in the entry at an index.
fn place_of_entry(heap: &Heap, i: usize) -> u64
    requires { i < index_map_len heap.now }
    ensures { result ≡ place_at heap.now.entries i }
{
    *heap.get_index(i).unwrap().1
}

/// Whether the entry at an index is of this type.
fn is_type_at(heap: &Heap, i: usize, mtype: i64) -> bool
    requires { i < index_map_len heap.now }
    ensures { result ≡ int_eq (type_at heap.now.entries i) mtype }
{
    *heap.get_index(i).unwrap().0 == mtype
}

/// The parent of this entry, if its place is greater.
pub(crate) fn greater_above(heap: &Heap, i: usize) -> Option<usize>
    requires { i < index_map_len heap.now }
    ensures { IsGreaterAbove heap.now.entries i result }
{
    if i == 0 {
        return None;
    }
    let above = (i - 1) / 2;
    if place_of_entry(heap, i) < place_of_entry(heap, above) {
        Some(above)
    } else {
        None
    }
}

/// The child of this entry with the least place.
fn least_under(heap: &Heap, i: usize) -> Option<usize>
    requires { i < index_map_len heap.now }
    ensures { IsLeastUnder heap.now.entries i result }
{
    let len = heap.len();
    let left = 2 * i + 1;
    if len <= left {
        return None;
    }
    let right = left + 1;
    if right < len && place_of_entry(heap, right) < place_of_entry(heap, left) {
        Some(right)
    } else {
        Some(left)
    }
}

/// The child of this entry with the least place, if that is less than the entry's own.
fn lesser_under(heap: &Heap, i: usize) -> Option<usize>
    requires { i < index_map_len heap.now }
    ensures { IsLesserUnder heap.now.entries i result }
{
    let least = least_under(heap, i)?;
    if place_of_entry(heap, least) < place_of_entry(heap, i) {
        Some(least)
    } else {
        None
    }
}

/// The entry with the least place of those of another type.
fn first_beside(heap: &Heap, other: i64) -> Option<usize>
    requires { IsHeap heap.now.entries }
    ensures { IsLeastEntry (λ t. not (int_eq t other)) heap.now.entries result }
{
    if heap.len() == 0 {
        return None;
    }
    if is_type_at(heap, 0, other) {
        least_under(heap, 0)
    } else {
        Some(0)
    }
}

/// The least place of those of another type.
pub(crate) fn least_beside(heap: &Heap, other: i64) -> Option<u64>
    requires { IsHeap heap.now.entries }
    ensures { IsLeastAt (λ t. not (int_eq t other)) (get int_eq heap.now) result }
{
    // The length is what says that no two entries are of one type.
    let _len = heap.len();
    let first = first_beside(heap, other)?;
    Some(place_of_entry(heap, first))
}

/// The least place.
pub(crate) fn least(heap: &Heap) -> Option<u64>
    requires { IsHeap heap.now.entries }
    ensures { IsLeastAt (λ _. true) (get int_eq heap.now) result }
{
    if heap.len() == 0 {
        return None;
    }
    Some(place_of_entry(heap, 0))
}

/// Sifts an entry up until its parent's place is not greater.
pub(crate) fn rise(heap: &mut Heap, i: usize)
    requires { IsHeapUpTo i heap.old.entries }
    ensures { IsHeapOf heap.old heap.new }
{
    let mut at = i;
    while let Some(above) = greater_above(heap, at) {
        heap.swap_indices(at, above);
        at = above;
    }
}

/// Sifts an entry down until no child's place is less.
pub(crate) fn sink(heap: &mut Heap, i: usize)
    requires { IsHeapDownTo i heap.old.entries }
    ensures { IsHeapOf heap.old heap.new }
{
    let mut at = i;
    while let Some(below) = lesser_under(heap, at) {
        heap.swap_indices(at, below);
        at = below;
    }
}

/// Sifts an entry that replaced another up or down to its position.
pub(crate) fn restore(heap: &mut Heap, i: usize)
    requires { IsHeapBut i heap.old.entries }
    ensures { IsHeapOf heap.old heap.new }
{
    match greater_above(heap, i) {
        Some(_) => rise(heap, i),
        None => sink(heap, i),
    }
}
