//! What holds of images: each law is the contract of a function that does nothing.

ghost use Rattle.std.specs.Prelude.{◌≡◌, ◌++◌, ℕ, Bool, List, Option, length, true};
ghost use Rattle.std.specs.List.{flat_map};
ghost use Rattle.strm_types.specs.declared.names.ModuleName.TheVariants as names;
ghost use Rattle.strm_types.specs.Ldterms.{Discipline};
ghost use Rattle.strm_types.specs.Message.{Message};
ghost use Rattle.strm_types.specs.Owns.{Own};
ghost use Rattle.strm_types.specs.Pckts.{Pckt};
ghost use Rattle.strm_types.specs.Ptems.{Ptem};
ghost use Rattle.strm_types.specs.Queue.{Queue};
ghost use Rattle.strm_types.specs.Standings.{QueuePair, stood};
ghost use Rattle.strm_laws.specs.Stacked.{OfOwn, OfPtem, OfPckt, Standing, ldterm_stands};
ghost use Rattle.strm_image.specs.declared.versions.QueueKind.{QueueKind};
ghost use Rattle.strm_image.specs.declared.versions.Version.{Version};
ghost use Rattle.strm_image.specs.declared.versions.Version.TheVariants.{First, Second};
ghost use Rattle.strm_image.specs.Codes.{module_kind};
ghost use Rattle.strm_image.specs.Format.{byte, u32};
ghost use Rattle.strm_image.specs.Image.{Imaged, image};
ghost use Rattle.strm_image.specs.Messages.{message, messages};
ghost use Rattle.strm_image.specs.Modules.{alone, module_format, modules, ptem, settings};
ghost use Rattle.strm_image.specs.Queues.{queue};
ghost use Rattle.strm_image.specs.Streams.{Laid, laid};
ghost use Rattle.strm_image.specs.Written.{image_text, laid_text, ldterm_text, pair_text, queue_text};

/// A text is the image of one state at most, and has one version.
pub fn one_image()
    ensures { (v w : Version) (x y : Imaged) → image.fits (v, x) ≡ true → image.fits (w, y) ≡ true
        → image.text (v, x) ≡ image.text (w, y) → (v ≡ w) × (x ≡ y) }
{}

/// A state that has an image of version 1 has one of version 2, and what is read from both is this state.
pub fn versions_agree()
    ensures { (x : Imaged) → image.fits (First, x) ≡ true → image.fits (Second, x) ≡ true }
{}

/// The text of version 2 in parts, as writers put them one behind the other: a list of messages or modules, a queue, an `ldterm`, a
/// module of a user's own with its queues where it has any, a stream, and the whole.
pub fn second_in_parts()
    ensures messages { (at : QueueKind) (ms : List (Message ℕ)) → (messages Second at).text ms ≡ u32.text (length ms) ++ flat_map (message Second).text ms }
    ensures modules { (ms : List (Standing ℕ)) → (modules Second).text ms ≡ byte.text (length ms) ++ flat_map (module_format Second).text ms }
    ensures queue { (at : QueueKind) (q : Queue ℕ) → (queue Second at).text q ≡ queue_text at q }
    ensures ldterm { (l : Discipline ℕ) → (module_format Second).text (ldterm_stands l) ≡ ldterm_text l }
    ensures ptem { (p : Ptem) → (module_format Second).text (alone (OfPtem p)) ≡ module_kind.text names.Ptem ++ ptem.text p }
    ensures pckt { (p : Pckt) → (module_format Second).text (alone (OfPckt p)) ≡ module_kind.text names.Pckt }
    ensures own { (o : Own) (queues : Option (QueuePair ℕ)) → (module_format Second).text (stood (OfOwn o) queues)
        ≡ module_kind.text (names.Own o.number) ++ (settings.text o.settings ++ pair_text queues) }
    ensures stream { (is_slave : Bool) (t : Laid) → (laid Second is_slave).text t ≡ laid_text is_slave t }
    ensures whole { (x : Imaged) → image.text (Second, x) ≡ image_text x }
{}
