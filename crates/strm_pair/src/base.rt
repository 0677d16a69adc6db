//! Where a pair's journal begins: the image of the state that it had there.

ghost use Rattle.std.specs.Prelude.{◌≡◌, ◌≤◌, [], length, vec_capacity};
ghost use Rattle.strm_image.specs.HasImage.{HasImage, imaged};
ghost use Rattle.strm_image.specs.Image.{image};
ghost use Rattle.strm_image.specs.declared.versions.Version.TheVariants.{Second};
ghost use Rattle.strm_pair.specs.BaseTexts.{start_in, begun_at, made_of};
ghost use Rattle.strm_pair.specs.Pairs.{AreHeld, state_in};

use crate::images::whole::image_into;
use crate::past::Past;
use crate::streams::Streams;
use crate::zeros::{give_back, shorten};
use std::mem;
use strm_blocks::Blocks;
use strm_types::{Both, Fates};

/// The base of a journal: the image, in version 2, of the state and of what had gone by each rule where it begins, in memory that was
/// reserved for it; how many bytes had been made on the way in each direction, which an image doesn't tell; and the entries before,
/// as proofs know them. Zeros are written over what stood behind the image, and over the image before it goes.
pub(crate) struct Base {
    pub text: Vec<u8>,
    pub made: Both<u64>,
    pub past: Past,
}

impl Drop for Base {
    fn drop(self) {
        let Base {
            text,
            made: _,
            past: _,
        } = self;
        give_back(text);
    }
}

// The image of streams over their store, in memory that takes it. It is written again only where it is longer than what stood there.
fn text_of<B: Blocks>(store: &B, streams: &Streams, fates: &Fates, memory: Vec<u8>) -> Vec<u8>
    requires held { AreHeld (B.value store.now) streams.now }
    requires room { length (image.text (Second, imaged (state_in (B.value store.now) streams.now) fates.now)) ≤ vec_capacity memory }
    ensures text { result.items ≡ image.text (Second, imaged (state_in (B.value store.now) streams.now) fates.now) }
    ensures memory { vec_capacity memory ≤ vec_capacity result }
{
    let mut text = memory;
    let wanted = image_into(store, streams, fates, text.as_mut_slice());
    if text.len() < wanted {
        text.resize(wanted, 0).unwrap();
        image_into(store, streams, fates, text.as_mut_slice());
    }
    shorten(&mut text, wanted);
    text
}

// How many bytes were made on the way.
fn made_of(fates: &Fates) -> Both<u64>
    ensures { result ≡ made_of fates.now }
{
    Both {
        master: fates.made_from_master,
        slave: fates.made_from_slave,
    }
}

impl Base {
    /// A base at what streams over their store stand for, with what has gone by each rule; no entry led to it. The cost is that of the image.
    pub fn at<B: Blocks>(store: &B, streams: &Streams, fates: &Fates, memory: Vec<u8>) -> Base
        requires held { AreHeld (B.value store.now) streams.now }
        requires has { HasImage (imaged (state_in (B.value store.now) streams.now) fates.now) }
        requires room { length (image.text (Second, imaged (state_in (B.value store.now) streams.now) fates.now)) ≤ vec_capacity memory }
        ensures start { start_in result ≡ begun_at (state_in (B.value store.now) streams.now) fates.now [] }
        ensures text { result.text.items ≡ image.text (Second, imaged (state_in (B.value store.now) streams.now) fates.now) }
        ensures memory { vec_capacity memory ≤ vec_capacity result.text }
    {
        Base {
            text: text_of(store, streams, fates, memory),
            made: made_of(fates),
            past: Past::none(),
        }
    }

    /// Goes to what streams over their store stand for, with what has gone by each rule. The memory stays, and the entries before. The cost is
    /// that of the image.
    pub fn write<B: Blocks>(&mut self, store: &B, streams: &Streams, fates: &Fates)
        requires held { AreHeld (B.value store.now) streams.now }
        requires has { HasImage (imaged (state_in (B.value store.now) streams.now) fates.now) }
        requires room { length (image.text (Second, imaged (state_in (B.value store.now) streams.now) fates.now)) ≤ vec_capacity self.old.text }
        ensures start { start_in self.new ≡ begun_at (state_in (B.value store.now) streams.now) fates.now self.old.past.entries }
        ensures text { self.new.text.items ≡ image.text (Second, imaged (state_in (B.value store.now) streams.now) fates.now) }
        ensures memory { vec_capacity self.old.text ≤ vec_capacity self.new.text }
    {
        let empty = Vec::new(*self.text.allocator());
        let memory = mem::replace(&mut self.text, empty);
        self.text = text_of(store, streams, fates, memory);
        self.made = made_of(fates);
    }
}
