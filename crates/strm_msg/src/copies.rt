//! Messages made of other messages.
ghost use Rattle.std.specs.Prelude.{length, MatchResult};
ghost use Rattle.strm_blocks.specs.Blocks.{IsInHand, in_hand, token};
ghost use Rattle.strm_msg.specs.Made.{Made, TooFew, Shared, Unshared};

use strm_blocks::{Blocks, InHand, NoBlocks};

/// Duplicates a message: `dupmsg(9F)`. The new message has a block for each block of the message, which shows the same
/// bytes of the same data block. It takes as many message blocks as the message has; `NoBlocks` where fewer are free, or
/// a data block would have more than 255 references, and then nothing changes.
pub fn dupmsg<B: Blocks>(store: &mut B, message: &InHand) -> Result<InHand, NoBlocks>
    requires { IsInHand (B.value store.old) (token message.now) }
    ensures { let chain = in_hand (B.value store.old) (token message.now) in
        MatchResult result (λ m. Shared (B.value store.old) (B.value store.new) (token m) chain)
        (λ _. Unshared (B.value store.old) (B.value store.new) chain) }
{
    store.audit();
    let count = store.blocks(message);
    let mut twin = store.dup(message, 0)?;
    for at in 1..count {
        match store.dup(message, at) {
            Ok(next) => twin = store.link(twin, next),
            Err(NoBlocks) => {
                store.free(twin);
                return Err(NoBlocks);
            }
        }
    }
    Ok(twin)
}

/// Copies a message with its bytes: `copymsg(9F)`. The copy has a block of the same kind and band for each block of the
/// message, in a data block of its own. It takes one block of each kind for each; `NoBlocks` where fewer are free, and
/// then nothing changes.
pub fn copymsg<B: Blocks>(store: &mut B, message: &InHand) -> Result<InHand, NoBlocks>
    requires { IsInHand (B.value store.old) (token message.now) }
    ensures { let chain = in_hand (B.value store.old) (token message.now) in
        MatchResult result (λ m. Made (B.value store.old) (B.value store.new) (token m) chain)
        (λ _. TooFew (B.value store.old) (B.value store.new) (length chain)) }
{
    let count = store.blocks(message);
    let mut copy = store.copy(message, 0)?;
    for at in 1..count {
        match store.copy(message, at) {
            Ok(next) => copy = store.link(copy, next),
            Err(NoBlocks) => {
                store.free(copy);
                return Err(NoBlocks);
            }
        }
    }
    Ok(copy)
}
