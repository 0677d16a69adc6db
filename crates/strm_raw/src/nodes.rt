//! Nodes of one type side by side in one block of memory, and raw pointers to them. A pointer owns nothing: what lies
//! there is reached through the owner of the nodes, whose block stays where it is.
ghost use Rattle.std.specs.Prelude.{◌≡◌, ℕ, ◌<◌, length, slice_get, Some};
ghost use Rattle.std.specs.Borrow.{sem};
ghost use Rattle.std.specs.Mem.{type_size};
ghost use Rattle.std_alloc.specs.Vec.{vec_ptr, vec_follows_item};
ghost use denote.RawPtr.{InBlock};
ghost use Rattle.strm_raw.specs.Links.{place, index_of, IsPlace};

use std::alloc::Allocator;

/// Where node `index` lies, counted from 0. `base` is where the nodes begin.
pub(crate) fn place_of<T, A: Allocator>(nodes: &Vec<T, A>, base: *const T, index: usize) -> *mut T
    requires base { base ≡ vec_ptr nodes.now }
    requires within { index < length nodes.now.items }
    ensures place { result ≡ place (type_size T.row) base index }
    ensures block { InBlock base }
{
    unsafe { base.cast_mut().add(index) }
}

/// The node that lies there.
pub(crate) fn reach<T, A: Allocator>(nodes: &Vec<T, A>, at: *mut T) -> &T
    requires { IsPlace (type_size T.row) (vec_ptr nodes.now) at (length nodes.now.items) }
    ensures { slice_get nodes.now.items (index_of (type_size T.row) (vec_ptr nodes.now) at) ≡ Some result.now }
{
    unsafe { &*at }
}

/// The node that lies there, to write to.
pub(crate) fn reach_mut<T, A: Allocator>(nodes: &mut Vec<T, A>, at: *mut T) -> &mut T
    requires { IsPlace (type_size T.row) (vec_ptr nodes.old) at (length nodes.old.items) }
    ensures* writes_back { sem 𝓛 (vec_follows_item T.row A.row A.Allocator nodes.entry (index_of (type_size T.row) (vec_ptr nodes.old) at) result) }
    ensures value { slice_get nodes.old.items (index_of (type_size T.row) (vec_ptr nodes.old) at) ≡ Some result.now }
{
    unsafe { &mut *at }
}
