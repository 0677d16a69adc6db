//! What bytes give that go out one after the other, as far as a buffer has room for it (termio(7I): "Output Modes").

ghost use Rattle.std.specs.Prelude.{ℕ, ◌≡◌, ◌≤◌, ◌<◌, ◌+◌, [], ◌∷◌, ◌++◌, true, length, nat_le, take};
ghost use Rattle.std.specs.List.{AllByRecursion};
ghost use Rattle.strm_types.specs.declared.rules.Fates.{Fates};
ghost use Rattle.strm_types.specs.declared.spots.Spot.{Spot};
ghost use Rattle.strm_types.specs.declared.termios.Termios.{Termios};
ghost use Rattle.strm_types.specs.Cells.{plain};
ghost use Rattle.strm_types.specs.Deliver.{tallied};
ghost use Rattle.strm_types.specs.Output.{made_for, told_for};
ghost use Rattle.strm_types.specs.OutputTurns.{output_dir};
ghost use Rattle.strm_types.specs.Termios.{olcuc};
ghost use Rattle.strm_ldterm.specs.Posting.{FlowsAs, bytes_given, is_printed};

use crate::graphic::{graphic_len, is_graphic};
use crate::posts::{moved_on, post, raised};
use arrayvec::ArrayVec;
use bitflags::Flags;
use strm_frame::direction_at;
use strm_types::{Fates, Given, OutputModes, Rule, Spot, Termios, Way};

/// How many bytes a buffer of output has room for.
pub(crate) const FLOW_MAX: usize = 256;

// The most bytes that a byte gives, the spaces of a TAB.
const GIVEN_MAX: usize = 8;

const SPACES: [u8; GIVEN_MAX] = [b' '; GIVEN_MAX];

/// What bytes gave that went out, and the column behind them.
#[derive(Drop)]
pub(crate) struct Flow {
    pub column: u16,
    pub given: ArrayVec<u8, FLOW_MAX>,
}

/// Whether a byte goes out as itself and moves the carriage on by a column: no control byte does, nor a lower-case letter under OLCUC.
pub(crate) fn is_printed(termios: &Termios, byte: u8) -> bool
    ensures { result ≡ is_printed termios.now byte }
{
    is_graphic(byte) && raised(termios, byte) == byte
}

// Whether lower-case letters go out as upper-case ones.
fn raises(termios: &Termios) -> bool
    ensures { result ≡ olcuc termios.now }
{
    termios.oflag.contains(OutputModes::OLCUC)
}

/// How many bytes at the front go out as themselves and move the carriage on by a column each.
pub(crate) fn printed_len(termios: &Termios, bytes: &[u8]) -> usize
    ensures within { result ≤ length bytes.now }
    ensures printed { AllByRecursion (λ b. is_printed termios.now b ≡ true) (take result bytes.now) }
{
    if !raises(termios) {
        return graphic_len(bytes);
    }
    for at in 0..bytes.len() {
        if !is_printed(termios, bytes[at]) {
            return at;
        }
    }
    bytes.len()
}

// Adds what a byte gives.
fn add_given(what: Given, given: &mut ArrayVec<u8, FLOW_MAX>)
    requires few { made_for what ≤ 8 }
    requires room { length given.old.items + 8 ≤ 256 }
    ensures { given.new.items ≡ given.old.items ++ bytes_given what }
{
    match what {
        Given::Byte(byte) => given.push(byte),
        Given::Ended => {
            given.push(b'\r');
            given.push(b'\n');
        }
        Given::Spaces(columns) => {
            let Ok(()) = given.try_extend_from_slice(&SPACES[..usize::from(columns)]) else {
                unreachable!()
            };
        }
        Given::Nothing => {}
    }
}

// Tells of bytes that are made for a byte that goes out, and of the byte, where it isn't given.
fn tell_given(told: &mut Fates, here: Spot, given: Given)
    ensures { (c : ℕ) → told.new ≡ tallied (told_for plain (output_dir plain here) given 0 c) told.old }
{
    let direction = direction_at(Way::Down, here.side);
    match given {
        Given::Byte(_) => {}
        Given::Ended => told.tell_made(direction, 1),
        Given::Spaces(columns) => {
            told.tell_made(direction, usize::from(columns));
            told.tell(direction, Rule::Replaced, 1);
        }
        Given::Nothing => told.tell(direction, Rule::Onocr, 1),
    }
}

// Whether there is room for what a byte gives.
fn has_room(given: &ArrayVec<u8, FLOW_MAX>) -> bool
    ensures { result ≡ nat_le (length given.now.items + 8) 256 }
{
    given.len() <= FLOW_MAX - GIVEN_MAX
}

// Bytes go out that go out as themselves, where there is room for them.
fn flow_run(bytes: &[u8], flow: &mut Flow)
    requires room { length flow.old.given.items + length bytes.now ≤ 256 }
    ensures { (here : Spot) (t : Termios) (f : Fates) → AllByRecursion (λ b. is_printed t b ≡ true) bytes.now →
        FlowsAs here t bytes.now (length bytes.now) flow.old flow.new f f }
{
    let Ok(()) = flow.given.try_extend_from_slice(bytes) else {
        unreachable!()
    };
    flow.column = moved_on(flow.column, bytes.len());
}

// A byte goes out.
fn flow_byte(termios: &Termios, here: Spot, byte: u8, flow: &mut Flow, told: &mut Fates)
    requires room { length flow.old.given.items + 8 ≤ 256 }
    ensures { FlowsAs here termios.now (byte ∷ []) 1 flow.old flow.new told.old told.new }
{
    let posted = post(termios, flow.column, byte);
    add_given(posted.given, &mut flow.given);
    tell_given(told, here, posted.given);
    flow.column = posted.column;
}

// The bytes at the front go out that go out as themselves, as many as there is room for, or else the first byte. Tells how many they are.
fn flow_some(
    termios: &Termios,
    here: Spot,
    bytes: &[u8],
    flow: &mut Flow,
    told: &mut Fates,
) -> usize
    requires some { 0 < length bytes.now }
    requires room { length flow.old.given.items + 8 ≤ 256 }
    ensures out { FlowsAs here termios.now bytes.now result flow.old flow.new told.old told.new }
    ensures some { 0 < result }
{
    let most = bytes.len().min(FLOW_MAX - flow.given.len());
    let run = printed_len(termios, &bytes[..most]);
    if run > 0 {
        flow_run(&bytes[..run], flow);
        return run;
    }
    flow_byte(termios, here, bytes[0], flow, told);
    1
}

/// Bytes go out one after the other, as long as there is room for what the next one gives. Tells how many they are. Those that go out as
/// themselves are found by one look each, and copied together.
pub(crate) fn flow_out(
    termios: &Termios,
    here: Spot,
    bytes: &[u8],
    flow: &mut Flow,
    told: &mut Fates,
) -> usize
    ensures out { FlowsAs here termios.now bytes.now result flow.old flow.new told.old told.new }
    ensures some { 0 < length bytes.now → length flow.old.given.items + 8 ≤ 256 → 0 < result }
{
    let mut at = 0;
    while at < bytes.len() && has_room(&flow.given) {
        at += flow_some(termios, here, &bytes[at..], flow, told);
    }
    at
}
