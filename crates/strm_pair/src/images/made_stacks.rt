//! The modules of a stream as a text has them.

ghost use Rattle.std.specs.Prelude.{ℕ, ◌≡◌, ◌≤◌, ◌<◌, ◌+◌, [], sum_by};
ghost use Rattle.strm_blocks.specs.Blocks.{list_at};
ghost use Rattle.strm_frame.specs.Hands.{HasRoom};
ghost use Rattle.strm_pair.specs.Placing.{AreModuleTexts, AreStacked, module_blocks, text_pair};
ghost use Rattle.strm_pair.specs.Shelves.{tables_on};

use crate::images::made_modules::module_of;
use crate::shelves::Shelf;
use crate::stacks::{Stack, pairs_among};
use strm_blocks::Blocks;
use strm_image::ModuleText;

/// Makes the modules of a text, the one on top first. Those that have queues stand on lists of their own from a number on, two for each, behind
/// those of the modules below it, and their tables are taken off the shelf.
pub(crate) fn stack_of<B: Blocks>(
    store: &mut B,
    first: usize,
    shelf: &mut Shelf,
    texts: &[ModuleText<'_>],
) -> Stack
    requires first { first ≤ 10 }
    requires empty { (k : ℕ) → first ≤ k → k < first + 6 → list_at (B.value store.old) k ≡ [] }
    requires shelf { sum_by text_pair texts.now ≤ tables_on shelf.old }
    requires good { AreModuleTexts texts.now }
    requires room { HasRoom (B.value store.old) (sum_by module_blocks texts.now) }
    ensures { AreStacked (B.value store.old) (B.value store.new) first shelf.old shelf.new texts.now result.modules.items }
{
    let Some((text, rest)) = texts.split_first() else {
        return Stack::new();
    };
    let mut stack = stack_of(store, first, shelf, rest);
    let pairs = pairs_among(stack.modules.as_slice());
    let module = module_of(store, first + 2 * pairs, shelf, text);
    stack.modules.insert(0, module);
    stack
}
