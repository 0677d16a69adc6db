//! Messages that a station sends on, in order.

ghost use Rattle.std.specs.Prelude.{◌≡◌, ◌↔◌, [], ◌∷◌, IsTrue, MatchOption};
ghost use Rattle.strm_frame.specs.Outboxes.{sent_of};

use strm_blocks::InHand;
use strm_types::Spot;

/// A message on its way to a spot.
#[derive(Drop)]
pub struct Sent {
    pub to: Spot,
    pub message: InHand,
}

/// At most four messages on their way, the first one first.
#[derive(Drop)]
pub struct Outbox {
    pub first: Option<Sent>,
    pub second: Option<Sent>,
    pub third: Option<Sent>,
    pub fourth: Option<Sent>,
}

impl Outbox {
    /// Nothing.
    pub fn none() -> Self
        ensures { sent_of result ≡ [] }
    {
        Outbox {
            first: None,
            second: None,
            third: None,
            fourth: None,
        }
    }

    /// One message.
    pub fn one(first: Sent) -> Self
        ensures { sent_of result ≡ first ∷ [] }
    {
        Outbox {
            first: Some(first),
            second: None,
            third: None,
            fourth: None,
        }
    }

    /// Two messages.
    pub fn two(first: Sent, second: Sent) -> Self
        ensures { sent_of result ≡ first ∷ second ∷ [] }
    {
        Outbox {
            first: Some(first),
            second: Some(second),
            third: None,
            fourth: None,
        }
    }

    /// Whether nothing is on its way.
    pub fn is_empty(&self) -> bool
        ensures { IsTrue result ↔ (sent_of self.now ≡ []) }
    {
        self.first.is_none()
            && self.second.is_none()
            && self.third.is_none()
            && self.fourth.is_none()
    }

    /// The first message, taken out.
    pub fn take_first(&mut self) -> Option<Sent>
        ensures { MatchOption result
            ((sent_of self.old ≡ []) × (sent_of self.new ≡ []))
            (λ sent. sent_of self.old ≡ sent ∷ sent_of self.new) }
    {
        if let Some(sent) = self.first.take() {
            return Some(sent);
        }
        if let Some(sent) = self.second.take() {
            return Some(sent);
        }
        if let Some(sent) = self.third.take() {
            return Some(sent);
        }
        self.fourth.take()
    }
}
