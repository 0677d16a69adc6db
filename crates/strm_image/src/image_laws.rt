//! Which states have an image, and how much it takes: each law is the contract of a function that does nothing.

ghost use Rattle.std.specs.Prelude.{◌≡◌, ◌≤◌, ◌<◌, ◌^◌, ◌+◌, ◌*◌, ℕ, true, List, length, Some};
ghost use Rattle.strm_types.specs.declared.limits.TheConstants.{BLOCK_SIZE};
ghost use Rattle.strm_types.specs.declared.rules.Fates.{Fates};
ghost use Rattle.strm_types.specs.Message.{Message};
ghost use Rattle.strm_laws.specs.Bases.{IsBase};
ghost use Rattle.strm_laws.specs.State.{State, messages_in};
ghost use Rattle.strm_image.specs.declared.lengths.TheConstants.{IMAGE_BLOCK, IMAGE_FIXED, MESSAGE_FIXED};
ghost use Rattle.strm_image.specs.declared.versions.Version.{Version};
ghost use Rattle.strm_image.specs.declared.versions.Version.TheVariants.{Second};
ghost use Rattle.strm_image.specs.Format.{IsBytes, whole};
ghost use Rattle.strm_image.specs.HasImage.{AreBanded, AreCounts, AreNumbers, AreShort, HasImage, bytes_in, counts_of, imaged, new_imaged};
ghost use Rattle.strm_image.specs.Image.{Imaged, image};
ghost use Rattle.strm_image.specs.InBlocks.{IsMessageInBlocks};
ghost use Rattle.strm_image.specs.Loads.{blocks_of};

/// A state has an image where it is restorable, its queues are in order, its numbers have their widths, and its ledgers balance. So has a pair
/// as it is made.
pub fn states_have_images()
    ensures each { (x : Imaged) → HasImage x → image.fits (Second, x) ≡ true }
    ensures new { image.fits (Second, new_imaged) ≡ true }
{}

/// The base of a journal has an image where its numbers have their widths.
pub fn bases_have_images()
    ensures { (s : State ℕ) (fates : Fates) → IsBase s fates → AreCounts fates → AreShort s → AreBanded s → AreNumbers s → HasImage (imaged s fates) }
{}

/// The other way round: what has a text of either version has all that an image asks, and its state is the base of a journal, with the fates
/// that the text says have gone. So what was read of bytes may become a pair, and that pair has an image of version 2.
pub fn images_are_bases()
    ensures images { (v : Version) (x : Imaged) → image.fits (v, x) ≡ true → HasImage x }
    ensures bases { (v : Version) (x : Imaged) (fates : Fates) → image.fits (v, x) ≡ true → counts_of fates ≡ x.fates → IsBase x.state fates }
{}

/// An image of version 2 is no longer than what the messages say: [`IMAGE_FIXED`] bytes, and for each message its own and [`MESSAGE_FIXED`];
/// and so no longer than [`IMAGE_FIXED`] bytes and [`IMAGE_BLOCK`] for each block, where each message has one at least.
pub fn image_is_bounded()
    ensures messages { (x : Imaged) → HasImage x → length (image.text (Second, x)) ≤ IMAGE_FIXED + (MESSAGE_FIXED * messages_in x.state + bytes_in x.state) }
    ensures blocks { (x : Imaged) (blocks : ℕ) → HasImage x → messages_in x.state ≤ blocks → bytes_in x.state ≤ BLOCK_SIZE * blocks
        → length (image.text (Second, x)) ≤ IMAGE_FIXED + IMAGE_BLOCK * blocks }
{}

/// Where all messages of a pair, and all their bytes, are fewer than 2^32, each queue and each message is short.
pub fn few_are_short()
    ensures { (s : State ℕ) → messages_in s < 2 ^ 32 → bytes_in s < 2 ^ 32 → AreShort s }
{}

/// What is read of the image of a state is this state, and what is read of bytes has them as its image.
pub fn image_of_image()
    ensures back { (x : Imaged) → HasImage x → whole image (image.text (Second, x)) ≡ Some (Second, x) }
    ensures same { (bytes : List ℕ) (x : Imaged) → IsBytes bytes → whole image bytes ≡ Some (Second, x) → image.text (Second, x) ≡ bytes }
{}

/// A message takes no more blocks of a pair that is made of an image than those in which it stood.
pub fn blocks_are_enough()
    ensures { (m : Message ℕ) (of_control of_data : ℕ) → IsMessageInBlocks of_control of_data m → blocks_of m ≤ of_control + of_data }
{}
