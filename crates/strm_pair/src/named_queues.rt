//! The module of a stack whose queues have a name, and what stands on them. Places count from 1 for the module on top.

ghost use Rattle.std.specs.Prelude.{◌≡◌, ◌<◌, false, length};
ghost use Rattle.strm_types.specs.ModuleQueues.{full_at};
ghost use Rattle.strm_laws.specs.ModuleTurns.{place_named};
ghost use Rattle.strm_types.specs.Queue.{bytes_of, count_of, first_size};
ghost use Rattle.strm_blocks.specs.Blocks.{StoreValue};
ghost use Rattle.strm_frame.specs.Stacks.{IsPlace};
ghost use Rattle.strm_pair.specs.Named.{at_named, is_there, messages_named};
ghost use Rattle.strm_pair.specs.Stacks.{modules_in, IsStackHeld};

use crate::stacks::{Stack, module_count, place_at};
use strm_blocks::Blocks;
use strm_types::{Band, MODULES, Place, Way};

// Whether queues of a place are these.
fn is_there(place: Place, found: Option<Place>) -> bool
    ensures { result ≡ is_there place found }
{
    match found {
        Some(there) => there.is_same(place),
        None => false,
    }
}

/// The place of the module of a stack whose queues have a name, where one stands there.
pub(crate) fn place_named(stack: &Stack, place: Place) -> Option<usize>
    ensures place { (s : StoreValue) → result ≡ place_named place (modules_in s stack.now) }
    ensures inside { (s : StoreValue) → IsPlace (length (modules_in s stack.now)) result }
{
    let count = module_count(stack).min(MODULES);
    for index in 0..count {
        if is_there(place, place_at(stack, index + 1)) {
            return Some(index + 1);
        }
    }
    None
}

/// How many messages stand on a queue of that module, and how many bytes they have.
pub(crate) fn sizes_named<B: Blocks>(
    stack: &Stack,
    store: &B,
    place: Place,
    way: Way,
) -> (usize, usize)
    requires { IsStackHeld (B.value store.now) stack.now }
    ensures messages { result.0 ≡ length (messages_named place way (modules_in (B.value store.now) stack.now)) }
    ensures bytes { result.1 ≡ bytes_of (messages_named place way (modules_in (B.value store.now) stack.now)) }
{
    match place_named(stack, place) {
        Some(at) => stack.sizes(store, at, way),
        None => (0, 0),
    }
}

/// How many bytes the first message on a queue of that module has.
pub(crate) fn first_size_named<B: Blocks>(stack: &Stack, store: &B, place: Place, way: Way) -> usize
    requires { IsStackHeld (B.value store.now) stack.now }
    ensures { result ≡ first_size (messages_named place way (modules_in (B.value store.now) stack.now)) }
{
    match place_named(stack, place) {
        Some(at) => stack.first_size(store, at, way),
        None => 0,
    }
}

/// How many bytes count in a band of a queue of that module.
pub(crate) fn count_named<B: Blocks>(
    stack: &Stack,
    store: &B,
    place: Place,
    way: Way,
    band: Band,
) -> usize
    requires held { IsStackHeld (B.value store.now) stack.now }
    ensures { result ≡ count_of band.0 (messages_named place way (modules_in (B.value store.now) stack.now)) }
{
    match place_named(stack, place) {
        Some(at) => stack.count(store, at, way, band),
        None => 0,
    }
}

/// Whether a band of a queue of that module is full.
pub(crate) fn is_full_named<B: Blocks>(
    stack: &Stack,
    store: &B,
    place: Place,
    way: Way,
    band: Band,
) -> bool
    requires held { IsStackHeld (B.value store.now) stack.now }
    ensures { result ≡ at_named place (full_at way band.0) false (modules_in (B.value store.now) stack.now) }
{
    match place_named(stack, place) {
        Some(at) => stack.is_full(store, at, way, band),
        None => false,
    }
}
