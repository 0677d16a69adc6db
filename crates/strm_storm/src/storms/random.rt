//! The calls of a storm, as a generator picks them.

ghost use Rattle.std.specs.Prelude.{◌≡◌, ◌/◌, ◌^◌, option_map};
ghost use Rattle.strm_types.specs.Events.{request};
ghost use Rattle.strm_storm.specs.Storms.{next_number, picked_call, picked_module};

use strm_types::{Event, FlushQueues, ModuleName};

const LETTERS: [u8; 300] = [b'a'; 300];

/// The number behind this one: those of the linear congruential generator of MMIX (Knuth, The Art of Computer Programming, 3.3.4).
pub(crate) fn next(number: u64) -> u64
    ensures { result ≡ next_number number }
{
    number
        .wrapping_mul(6364136223846793005)
        .wrapping_add(1442695040888963407)
}

/// The call that a number picks by its upper three bits, of eight; or none, where the pair is to be cut.
pub(crate) fn event_of(number: u64) -> Option<Event<&'static [u8]>>
    ensures { option_map request result ≡ picked_call (number / 2 ^ 61) number }
{
    let event = match number >> 61 {
        0 => Event::Write {
            bytes: &LETTERS[..((number >> 40) % 300) as usize],
        },
        1 => Event::Write {
            bytes: b"\n".as_slice(),
        },
        2 => Event::Read { n: 100 },
        3 => Event::Read { n: 4096 },
        4 => Event::Push {
            name: Some(module_of(number)),
        },
        5 => Event::Pop,
        6 => Event::Flush {
            what: FlushQueues::Both,
            band: None,
        },
        _ => return None,
    };
    Some(event)
}

// Which module a number picks, by its bit 40.
fn module_of(number: u64) -> ModuleName
    ensures { result ≡ picked_module number }
{
    if (number >> 40) % 2 == 0 {
        ModuleName::Ptem
    } else {
        ModuleName::Ldterm
    }
}
