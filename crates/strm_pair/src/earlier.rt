//! The nearest earlier queue of a place on a side's stream: the one that is enabled where there is room again (STREAMS Programming
//! Guide, "Flow Control"). Places count from the head's, 0, over the modules from the top, to the driver's.

ghost use Rattle.std.specs.Prelude.{◌≡◌, ◌≤◌, ◌<◌, ◌+◌, [], ◌∷◌, length};
ghost use Rattle.strm_types.specs.declared.limits.TheConstants.{MODULES};
ghost use Rattle.strm_types.specs.declared.names.Way.{Way};
ghost use Rattle.strm_laws.specs.Earlier.{before_at, before_modules, driver_place, modules_on, queue_named};
ghost use Rattle.strm_types.specs.Names.{enable_some};
ghost use Rattle.strm_laws.specs.Puts.{noted};
ghost use Rattle.strm_pair.specs.Nearest.{earlier_of, noted_on, queue_noted};

use crate::stacks::{module_count, place_at};
use crate::streams::Streams;
use strm_blocks::Blocks;
use strm_frame::Enabled;
use strm_types::{MODULES, Note, Place, QueueName, Side, Way};

// The queue of a way at a place of a side's stream, where it has queues.
fn queue_named(side: Side, way: Way, place: Option<Place>) -> Option<QueueName>
    ensures { result ≡ queue_named side way place }
{
    let place = place?;
    Some(QueueName { side, place, way })
}

/// The nearest earlier queues of a place, on the way up and on the way down.
#[derive(Clone, Copy)]
pub(crate) struct Earlier {
    pub up: Option<QueueName>,
    pub down: Option<QueueName>,
}

impl Earlier {
    // That of a way.
    fn of(self, way: Way) -> Option<QueueName>
        ensures { result ≡ earlier_of self way }
    {
        match way {
            Way::Up => self.up,
            Way::Down => self.down,
        }
    }
}

// The queue that a note enables, of a place with these nearest earlier queues.
fn queue_noted(side: Side, place: Option<Place>, earlier: Earlier, note: Note) -> Option<QueueName>
    ensures { result ≡ queue_noted side place (earlier_of earlier) note }
{
    match note {
        Note::Enable(way) => queue_named(side, way, place),
        Note::Room(way) => earlier.of(way),
    }
}

/// Enables what is said of the queues of a place, one note after the other, by the nearest earlier queues that it had: those of a module
/// that has gone.
pub(crate) fn note(
    enabled: &mut Enabled,
    side: Side,
    place: Option<Place>,
    earlier: Earlier,
    notes: &[Note],
)
    requires few { length (noted side place (earlier_of earlier) notes.now enabled.old) ≤ 14 }
    ensures { enabled.new ≡ noted side place (earlier_of earlier) notes.now enabled.old }
{
    let Some((first, rest)) = notes.split_first() else {
        return;
    };
    enabled.enable_found(queue_noted(side, place, earlier, *first));
    note(enabled, side, place, earlier, rest);
}

// Before all modules of a stream with so many, what comes up was sent by the other side's driver, and nothing with service
// stands before what goes down.
fn before_modules(side: Side, way: Way, count: usize, at: usize) -> Option<QueueName>
    ensures { result ≡ before_modules side way count at }
{
    match way {
        Way::Down => None,
        Way::Up if at <= count => Some(side.other().driver()),
        Way::Up => None,
    }
}

impl Streams {
    ghost use Rattle.strm_blocks.specs.Blocks.{StoreValue};
    ghost use Rattle.strm_pair.specs.Enabling.{MayLetGo, MayNote};
    ghost use Rattle.strm_pair.specs.Pairs.{state_in};

    /// How many modules have a place on a side's stream.
    pub(crate) fn modules_on(&self, side: Side) -> usize
        ensures on { (s : StoreValue) → result ≡ modules_on side (state_in s self.now) }
        ensures few { result ≤ MODULES }
    {
        module_count(&self.end(side).stack).min(MODULES)
    }

    /// The place of a side's driver, behind the modules.
    pub(crate) fn driver_place(&self, side: Side) -> usize
        ensures place { (s : StoreValue) → result ≡ driver_place side (state_in s self.now) }
        ensures inside { 0 < result }
        ensures small { result ≤ MODULES + 1 }
    {
        self.modules_on(side) + 1
    }

    /// The nearest earlier queue with service before a place of a side's stream, as messages of a way go.
    pub(crate) fn before(&self, side: Side, way: Way, at: usize) -> Option<QueueName>
        ensures { (s : StoreValue) → result ≡ before_at side way at (state_in s self.now) }
    {
        let stack = &self.end(side).stack;
        match stack.place_before(way, at) {
            Some(place) => queue_named(side, way, place_at(stack, place)),
            None => before_modules(side, way, module_count(stack).min(MODULES), at),
        }
    }

    /// Enables that queue, where a waiting writer is let go.
    pub(crate) fn let_go(&mut self, side: Side, way: Way, at: usize, lets_go: bool)
        requires few { MayLetGo side way at lets_go self.old }
        ensures { (s : StoreValue) → self.new ≡ record self.old {
          enabled =
              enable_some lets_go (before_at side way at (state_in s self.old)) self.old.enabled;
        } }
    {
        if lets_go {
            let earlier = self.before(side, way, at);
            self.enabled.enable_found(earlier);
        }
    }

    /// The nearest earlier queues of a place.
    pub(crate) fn earlier(&self, side: Side, at: usize) -> Earlier
        ensures { (s : StoreValue) (way : Way) → earlier_of result way ≡ before_at side way at (state_in s self.now) }
    {
        Earlier {
            up: self.before(side, Way::Up, at),
            down: self.before(side, Way::Down, at),
        }
    }

    // Does what one note of a put says of the queues of a place of a side's stream. The nearest earlier queue is looked for where the note asks for
    // it, and else not. Inlined, since mostly there is one, and of a head or a driver.
    #[inline(always)]
    fn note_one(&mut self, side: Side, place: Option<Place>, at: usize, note: Note)
        requires few { MayNote side place at (note ∷ []) self.old }
        ensures { (s : StoreValue) → self.new ≡ noted_on s side place at (note ∷ []) self.old }
    {
        match note {
            Note::Enable(way) => self.enabled.enable_found(queue_named(side, way, place)),
            Note::Room(way) => self.let_go(side, way, at, true),
        }
    }

    // Does what each note says, one after the other.
    fn note_each(&mut self, side: Side, place: Option<Place>, at: usize, notes: &[Note])
        requires few { MayNote side place at notes.now self.old }
        ensures { (s : StoreValue) → self.new ≡ noted_on s side place at notes.now self.old }
    {
        let Some((first, rest)) = notes.split_first() else {
            return;
        };
        self.note_one(side, place, at, *first);
        self.note_each(side, place, at, rest);
    }

    /// Does what a put says of the queues of a place of a side's stream, which mostly is nothing.
    #[inline(always)]
    pub(crate) fn note(&mut self, side: Side, place: Option<Place>, at: usize, notes: &[Note])
        requires few { MayNote side place at notes.now self.old }
        ensures { (s : StoreValue) → self.new ≡ noted_on s side place at notes.now self.old }
    {
        let Some((first, rest)) = notes.split_first() else {
            return;
        };
        self.note_one(side, place, at, *first);
        if !rest.is_empty() {
            self.note_each(side, place, at, rest);
        }
    }
}
