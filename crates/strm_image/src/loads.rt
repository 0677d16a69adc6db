//! What the messages of a stream take and hold.

ghost use Rattle.std.specs.Prelude.{◌≡◌, ◌<◌, ◌≤◌, ◌^◌, ◌*◌, sum_by, length};
ghost use Rattle.strm_types.specs.Queue.{is_none_left};
ghost use Rattle.strm_laws.specs.Stacked.{module_line};
ghost use Rattle.strm_image.specs.Loads.{blocks_of, counted_of};
ghost use Rattle.strm_image.specs.ModuleTexts.{ldterm_now, module_now, modules_now};
ghost use Rattle.strm_image.specs.StreamTexts.{laid_now};
ghost use Rattle.strm_image.specs.Texts.{messages_now};
ghost use Rattle.strm_image.specs.Counts.{cells_at, counted_in, down_cells, inline_cells, laid_blocks, module_blocks, up_cells};

use crate::modules::{KindText, LdtermText, ModuleText};
use crate::passed::MessagesText;
use crate::streams::StreamText;
use strm_types::Way;

impl<'a> MessagesText<'a> {
    /// Whether there is none.
    pub fn is_empty(&self) -> bool
        ensures { result ≡ is_none_left (messages_now self.now) }
    {
        self.count == 0
    }

    /// How many blocks of each kind the messages take.
    pub fn blocks(&self) -> usize
        ensures value { result ≡ sum_by blocks_of (messages_now self.now) }
        ensures few { result < 2 ^ 57 }
    {
        self.load.blocks
    }

    /// How many of their bytes a ledger counts.
    pub fn cells(&self) -> u128
        ensures value { result ≡ counted_in (messages_now self.now) }
        ensures few { result < 2 ^ 65 }
    {
        self.load.cells
    }
}

impl<'a> LdtermText<'a> {
    // How many bytes the unfinished line has.
    fn line_length(&self) -> usize
        ensures value { result ≡ length (ldterm_now self.now).line }
        ensures few { result < 2 ^ 63 }
    {
        self.line.len()
    }
}

impl<'a> ModuleText<'a> {
    // How many blocks of each kind its messages take.
    fn blocks(&self) -> usize
        ensures value { result ≡ module_blocks (module_now self.now) }
        ensures few { result < 2 ^ 58 }
    {
        match self.queues {
            Some(found) => found.read.messages.blocks() + found.write.messages.blocks(),
            None => 0,
        }
    }

    // How many bytes of a way its messages hold.
    fn cells(&self, way: Way) -> u128
        ensures value { result ≡ cells_at way (module_now self.now) }
        ensures few { result < 2 ^ 65 }
    {
        match self.queues {
            Some(found) => match way {
                Way::Up => found.read.messages.cells(),
                Way::Down => found.write.messages.cells(),
            },
            None => 0,
        }
    }

    // How many bytes its unfinished line has.
    fn line_length(&self) -> usize
        ensures value { result ≡ length (module_line (module_now self.now)) }
        ensures few { result < 2 ^ 63 }
    {
        match self.kind {
            KindText::Ldterm(found) => found.line_length(),
            KindText::Ptem(_) | KindText::Pckt | KindText::Own(_) => 0,
        }
    }
}

// How many blocks of each kind the messages of modules take.
fn blocks_of_modules(found: &[ModuleText<'_>]) -> usize
    requires { length found.now ≤ 3 }
    ensures value { result ≡ sum_by module_blocks (modules_now found.now) }
    ensures few { result ≤ 3 * 2 ^ 58 }
{
    let mut blocks = 0;
    for module in found {
        blocks += module.blocks();
    }
    blocks
}

// How many bytes of a way the messages of modules hold.
fn cells_of_modules(found: &[ModuleText<'_>], way: Way) -> u128
    requires { length found.now ≤ 3 }
    ensures value { result ≡ sum_by (cells_at way) (modules_now found.now) }
    ensures few { result ≤ 3 * 2 ^ 65 }
{
    let mut cells = 0;
    for module in found {
        cells += module.cells(way);
    }
    cells
}

// How many bytes the unfinished lines of modules have.
fn line_lengths(found: &[ModuleText<'_>]) -> u128
    requires { length found.now ≤ 3 }
    ensures value { result ≡ sum_by (λ p. length (module_line p)) (modules_now found.now) }
    ensures few { result ≤ 3 * 2 ^ 63 }
{
    let mut bytes = 0;
    for module in found {
        bytes += module.line_length() as u128;
    }
    bytes
}

impl<'a> StreamText<'a> {
    /// How many blocks of each kind the messages on its queues take.
    pub fn blocks(&self) -> usize
        ensures value { result ≡ laid_blocks (laid_now self.now) }
        ensures few { result < 2 ^ 61 }
    {
        self.head.messages.blocks()
            + (blocks_of_modules(self.modules.as_slice()) + self.driver.messages.blocks())
    }

    /// How many bytes that a ledger counts stand on its queues on the way up.
    pub fn up_cells(&self) -> u128
        ensures value { result ≡ up_cells (laid_now self.now) }
        ensures few { result < 2 ^ 68 }
    {
        self.head.messages.cells() + cells_of_modules(self.modules.as_slice(), Way::Up)
    }

    /// How many bytes that a ledger counts stand on its queues on the way down.
    pub fn down_cells(&self) -> u128
        ensures value { result ≡ down_cells (laid_now self.now) }
        ensures few { result < 2 ^ 68 }
    {
        cells_of_modules(self.modules.as_slice(), Way::Down) + self.driver.messages.cells()
    }

    /// How many bytes stand in its unfinished lines.
    pub fn inline_cells(&self) -> u128
        ensures value { result ≡ inline_cells (laid_now self.now) }
        ensures few { result < 2 ^ 65 }
    {
        line_lengths(self.modules.as_slice())
    }
}
