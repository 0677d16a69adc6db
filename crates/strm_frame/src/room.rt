//! Room past a place of a stream, by the queues of its modules (canputnext(9F), bcanput(9F); STREAMS Programming Guide,
//! "Flow Control"). Places count from the head's, 0, over the modules from the top; the first module's place is 1.

ghost use Rattle.std.specs.Prelude.{◌≡◌, ◌<◌, ◌≤◌, ◌-◌, false, not, [], length, map, slice_index_or};
ghost use Rattle.std.specs.List.{AllByRecursion, list_any};
ghost use Rattle.strm_types.specs.Queue.{bytes_of, count_of, first_size};
ghost use Rattle.strm_types.specs.declared.names.Way.TheVariants.{Up};
ghost use Rattle.strm_types.specs.Modules.{change_among};
ghost use Rattle.strm_types.specs.Refused.{has_no_data};
ghost use Rattle.strm_types.specs.ModuleQueues.{at_place, full_at, waits, place_below, place_above};
ghost use Rattle.strm_types.specs.ModuleQueues.{place_past, place_before, can_pass, room_at, waits_at, waits_past};
ghost use Rattle.strm_types.specs.Standings.{messages_at};
ghost use Rattle.strm_blocks.specs.Blocks.{StoreValue};
ghost use Rattle.strm_frame.specs.Does.{Changes};
ghost use Rattle.strm_frame.specs.Standings.{Fits, keeps_of, owns, standing_in};
ghost use Rattle.strm_frame.specs.Stacks.{IsPlace, all_in, all_of, AreHeld};

use crate::modules::Module;
use crate::stack::Stack;
use crate::standing::Standing;
use strm_blocks::Blocks;
use strm_types::{Band, Way};

// The nearest of these modules below a place that has queues.
fn place_below<M: Module>(modules: &[Standing<M>], at: usize) -> Option<usize>
    ensures place { (s : StoreValue) → result ≡ place_below at (map (standing_in M.plain s) modules.now) }
    ensures inside { IsPlace (length modules.now) result }
{
    for index in at..modules.len() {
        if modules[index].has_queues() {
            return Some(index + 1);
        }
    }
    None
}

// The nearest of these modules above a place that has queues.
fn place_above<M: Module>(modules: &[Standing<M>], at: usize) -> Option<usize>
    ensures place { (s : StoreValue) → result ≡ place_above at (map (standing_in M.plain s) modules.now) }
    ensures inside { IsPlace (length modules.now) result }
{
    let mut last = None;
    for index in 0..modules.len() {
        if index + 1 < at && modules[index].has_queues() {
            last = Some(index + 1);
        }
    }
    last
}

// Whether a band of a queue is full, of one of several modules, counted from 0.
fn is_full_among<B: Blocks, M: Module>(
    store: &B,
    modules: &[Standing<M>],
    at: usize,
    way: Way,
    band: Band,
) -> bool
    requires within { at < length modules.now }
    requires held { AreHeld (Fits M.IsHeld) owns (B.value store.now) modules.now }
    ensures { result ≡ slice_index_or (map (full_at way band.0) (map (standing_in M.plain (B.value store.now)) modules.now))
        at false }
{
    modules[at].is_full(store, way, band)
}

// Whether a band of a queue has room at a place, where there is one.
fn room_at<B: Blocks, M: Module>(
    store: &B,
    modules: &[Standing<M>],
    place: Option<usize>,
    way: Way,
    band: Band,
) -> Option<bool>
    requires place { IsPlace (length modules.now) place }
    requires held { AreHeld (Fits M.IsHeld) owns (B.value store.now) modules.now }
    ensures { result ≡ room_at way band.0 (map (standing_in M.plain (B.value store.now)) modules.now) place }
{
    match place {
        Some(place) => Some(!is_full_among(store, modules, place - 1, way, band)),
        None => None,
    }
}

// Has a writer of a band wait at a queue of one of several modules, counted from 0.
fn let_wait_among<M: Module>(modules: &mut [Standing<M>], at: usize, way: Way, band: Band)
    requires within { at < length modules.old }
    ensures length { length modules.new ≡ length modules.old }
    ensures does { Changes (all_in (standing_in M.plain)) (AreHeld (Fits M.IsHeld) owns) (all_of owns) (all_of (keeps_of M.keeps)) modules.old
        modules.new
        (change_among (waits way band.0) at) }
{
    modules[at].let_wait(way, band);
}

// The same at a place, where there is one.
fn let_wait_at<M: Module>(modules: &mut [Standing<M>], place: Option<usize>, way: Way, band: Band)
    requires place { IsPlace (length modules.old) place }
    ensures length { length modules.new ≡ length modules.old }
    ensures does { Changes (all_in (standing_in M.plain)) (AreHeld (Fits M.IsHeld) owns) (all_of owns) (all_of (keeps_of M.keeps)) modules.old
        modules.new
        (λ ps. waits_at way band.0 ps place) }
{
    match place {
        Some(place) => let_wait_among(modules, place - 1, way, band),
        None => {}
    }
}

// How many bytes count in a band of a queue, of one of several modules, counted from 0.
fn count_among<B: Blocks, M: Module>(
    store: &B,
    modules: &[Standing<M>],
    at: usize,
    way: Way,
    band: Band,
) -> usize
    requires within { at < length modules.now }
    requires held { AreHeld (Fits M.IsHeld) owns (B.value store.now) modules.now }
    ensures { result ≡ count_of band.0 (slice_index_or (map (messages_at way)
        (map (standing_in M.plain (B.value store.now)) modules.now)) at []) }
{
    modules[at].count(store, way, band)
}

// How much stands on a queue of one of several modules, counted from 0.
fn sizes_among<B: Blocks, M: Module>(
    store: &B,
    modules: &[Standing<M>],
    at: usize,
    way: Way,
) -> (usize, usize)
    requires within { at < length modules.now }
    requires held { AreHeld (Fits M.IsHeld) owns (B.value store.now) modules.now }
    ensures messages { result.0 ≡ length (slice_index_or (map (messages_at way)
        (map (standing_in M.plain (B.value store.now)) modules.now)) at []) }
    ensures bytes { result.1 ≡ bytes_of (slice_index_or (map (messages_at way)
        (map (standing_in M.plain (B.value store.now)) modules.now)) at []) }
{
    modules[at].sizes(store, way)
}

// How many bytes the first message on a queue of one of several modules has, counted from 0.
fn first_size_among<B: Blocks, M: Module>(
    store: &B,
    modules: &[Standing<M>],
    at: usize,
    way: Way,
) -> usize
    requires within { at < length modules.now }
    requires held { AreHeld (Fits M.IsHeld) owns (B.value store.now) modules.now }
    ensures { result ≡ first_size (slice_index_or (map (messages_at way)
        (map (standing_in M.plain (B.value store.now)) modules.now)) at []) }
{
    modules[at].first_size(store, way)
}

// Whether no M_DATA or M_PROTO stands on the read queues of these modules.
fn none_wait_up<B: Blocks, M: Module>(store: &B, modules: &[Standing<M>]) -> bool
    requires { AllByRecursion (Fits M.IsHeld (B.value store.now)) modules.now }
    ensures { result ≡ not (list_any (λ p. not (has_no_data (messages_at Up p)))
        (map (standing_in M.plain (B.value store.now)) modules.now)) }
{
    let Some((first, rest)) = modules.split_first() else {
        return true;
    };
    first.none_waits_up(store) && none_wait_up(store, rest)
}

impl<M: Module + Default> Stack<M> {
    /// The place of the nearest module past a place that has a queue, as messages of a way go; None where no module there
    /// has one, so that what stands behind the modules is next.
    pub fn place_past(&self, way: Way, at: usize) -> Option<usize>
        ensures place { (s : StoreValue) → result ≡
            place_past way at (map (standing_in M.plain s) self.now.modules.items) }
        ensures inside { IsPlace (length self.now.modules.items) result }
    {
        match way {
            Way::Down => place_below(self.modules.as_slice(), at),
            Way::Up => place_above(self.modules.as_slice(), at),
        }
    }

    /// The place of the nearest module before a place that has a queue, as messages of a way go: the queue that is
    /// enabled when there is room again at the place ("back-enabling"). None where no module there has one.
    pub fn place_before(&self, way: Way, at: usize) -> Option<usize>
        ensures place { (s : StoreValue) → result ≡
            place_before way at (map (standing_in M.plain s) self.now.modules.items) }
        ensures inside { IsPlace (length self.now.modules.items) result }
    {
        match way {
            Way::Down => place_above(self.modules.as_slice(), at),
            Way::Up => place_below(self.modules.as_slice(), at),
        }
    }

    /// Whether a message of a band may go on past a place, as messages of a way go: whether that band isn't full of the
    /// nearest queue there (canputnext(9F), bcanput(9F)). None where no module there has a queue, so that what stands
    /// behind the modules is asked. Nobody waits for room by this.
    pub fn can_pass<B: Blocks>(&self, store: &B, way: Way, band: Band, at: usize) -> Option<bool>
        requires held { AreHeld (Fits M.IsHeld) owns (B.value store.now) self.now.modules.items }
        ensures { result ≡ can_pass way band.0 at
            (map (standing_in M.plain (B.value store.now)) self.now.modules.items) }
    {
        let place = self.place_past(way, at);
        room_at(store, self.modules.as_slice(), place, way, band)
    }

    /// Has a service procedure wait for room in a band of the nearest queue past a place, as messages of a way go:
    /// want-write is set there. Nothing where no module there has a queue.
    pub fn let_wait_past(&mut self, way: Way, band: Band, at: usize)
        ensures length { length self.new.modules.items ≡ length self.old.modules.items }
        ensures does { Changes (all_in (standing_in M.plain)) (AreHeld (Fits M.IsHeld) owns) (all_of owns) (all_of (keeps_of M.keeps))
            self.old.modules.items self.new.modules.items (waits_past way band.0 at) }
    {
        let place = self.place_past(way, at);
        let_wait_at(self.modules.as_mut_slice(), place, way, band);
    }

    /// Whether no M_DATA or M_PROTO stands on the read queues of the modules.
    pub fn none_waits_up<B: Blocks>(&self, store: &B) -> bool
        requires { AreHeld (Fits M.IsHeld) owns (B.value store.now) self.now.modules.items }
        ensures { result ≡ not (list_any (λ p. not (has_no_data (messages_at Up p)))
            (map (standing_in M.plain (B.value store.now)) self.now.modules.items)) }
    {
        none_wait_up(store, self.modules.as_slice())
    }

    /// How many messages stand on a queue of the module at a place, and how many bytes they have; nothing without one.
    pub fn sizes<B: Blocks>(&self, store: &B, place: usize, way: Way) -> (usize, usize)
        requires inside { 0 < place }
        requires within { place ≤ length self.now.modules.items }
        requires held { AreHeld (Fits M.IsHeld) owns (B.value store.now) self.now.modules.items }
        ensures messages { result.0 ≡ length (at_place (messages_at way) [] place
            (map (standing_in M.plain (B.value store.now)) self.now.modules.items)) }
        ensures bytes { result.1 ≡ bytes_of (at_place (messages_at way) [] place
            (map (standing_in M.plain (B.value store.now)) self.now.modules.items)) }
    {
        sizes_among(store, self.modules.as_slice(), place - 1, way)
    }

    /// How many bytes the first message on a queue of the module at a place has; none where none stands there.
    pub fn first_size<B: Blocks>(&self, store: &B, place: usize, way: Way) -> usize
        requires inside { 0 < place }
        requires within { place ≤ length self.now.modules.items }
        requires held { AreHeld (Fits M.IsHeld) owns (B.value store.now) self.now.modules.items }
        ensures { result ≡ first_size (at_place (messages_at way) [] place
            (map (standing_in M.plain (B.value store.now)) self.now.modules.items)) }
    {
        first_size_among(store, self.modules.as_slice(), place - 1, way)
    }

    /// How many bytes count in a band of a queue of the module at a place; none without one.
    pub fn count<B: Blocks>(&self, store: &B, place: usize, way: Way, band: Band) -> usize
        requires inside { 0 < place }
        requires within { place ≤ length self.now.modules.items }
        requires held { AreHeld (Fits M.IsHeld) owns (B.value store.now) self.now.modules.items }
        ensures { result ≡ count_of band.0 (at_place (messages_at way) [] place
            (map (standing_in M.plain (B.value store.now)) self.now.modules.items)) }
    {
        count_among(store, self.modules.as_slice(), place - 1, way, band)
    }

    /// Whether a band of a queue of the module at a place is full; not without one.
    pub fn is_full<B: Blocks>(&self, store: &B, place: usize, way: Way, band: Band) -> bool
        requires inside { 0 < place }
        requires within { place ≤ length self.now.modules.items }
        requires held { AreHeld (Fits M.IsHeld) owns (B.value store.now) self.now.modules.items }
        ensures { result ≡ at_place (full_at way band.0) false place
            (map (standing_in M.plain (B.value store.now)) self.now.modules.items) }
    {
        is_full_among(store, self.modules.as_slice(), place - 1, way, band)
    }
}
