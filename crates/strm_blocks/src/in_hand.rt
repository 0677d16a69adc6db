//! What names a message in hand.
ghost use Rattle.std.specs.Prelude.{◌≡◌};

/// The token of a message in hand: a number of 32 bits by which its store knows the message. Only a store makes one, it can't be copied,
/// and a message whose token is dropped stays in hand. All stores have this one token, so that whoever keeps messages in hand, as a module does,
/// is of one size whatever the store.
#[derive(Drop)]
pub struct InHand {
    pub(crate) name: u32,
}

impl InHand {
    /// The token of a number. It is for stores: a token of a number that no message in hand has meets no call's `requires`.
    pub fn of(name: u32) -> InHand
        ensures { result.name ≡ name }
    {
        InHand { name }
    }

    /// The number of a token. It is for stores.
    pub fn name(&self) -> u32
        ensures { result ≡ self.now.name }
    {
        self.name
    }
}
