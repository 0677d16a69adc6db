//! The ledger of a direction: where its bytes are.

/// Where the bytes of a direction are: each was written or made once, and stands on a queue, in an unfinished line, or has gone by
/// one rule. So `written + made` is `queued + inline` and the sum of `fates`.
#[derive(Clone, Copy)]
pub struct Ledger {
    /// How many bytes write(2) and putmsg(2) brought, those of control parts too.
    pub written: u64,
    /// How many bytes were made on the way, as an echo is.
    pub made: u64,
    /// How many stand on queues.
    pub queued: u64,
    /// How many stand in unfinished lines.
    pub inline: u64,
    /// How many have gone, by the numbers of their rules ([`crate::Rule::number`]).
    pub fates: [u64; 21],
}
