//! Notes of what a put does to the enabled list beside sending (putq(9F), qenable(9F)).

ghost use Rattle.std.specs.Prelude.{◌≡◌, ◌++◌, if◌then◌else◌, [], ◌∷◌};
ghost use Rattle.strm_types.specs.declared.names.Way.TheVariants.{Up, Down};
ghost use Rattle.strm_types.specs.declared.spots.Note.TheVariants.{Room};

use arrayvec::ArrayVec;
use strm_types::{Note, Way};

/// A note, where a condition holds, and else none.
pub fn note_if(holds: bool, note: Note) -> ArrayVec<Note, 4>
    ensures { result.items ≡ (if holds then note ∷ [] else []) }
{
    let mut notes = ArrayVec::new();
    if holds {
        notes.push(note);
    }
    notes
}

/// Which queues have room again, for those before them.
pub fn rooms(up: bool, down: bool) -> ArrayVec<Note, 4>
    ensures { result.items ≡ (if up then Room Up ∷ [] else []) ++ (if down then Room Down ∷ [] else []) }
{
    let mut notes = ArrayVec::new();
    if up {
        notes.push(Note::Room(Way::Up));
    }
    if down {
        notes.push(Note::Room(Way::Down));
    }
    notes
}
