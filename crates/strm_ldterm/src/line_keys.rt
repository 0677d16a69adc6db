//! Keys that send nothing: what they do to the unfinished line, and bytes that are gathered where no lines are made (termio(7I):
//! "Canonical Mode Input Processing", "Non-Canonical Mode Input Processing", "Special Characters").

ghost use Rattle.std.specs.Prelude.{ℕ, ◌≡◌, ◌≤◌, ◌<◌, ◌∷◌, ◌++◌, List, [], true, length, IfSome};
ghost use Rattle.strm_types.specs.declared.rules.Rule.TheVariants.{EraseKey, Erased, Killed};
ghost use Rattle.strm_types.specs.Cells.{plain};
ghost use Rattle.strm_types.specs.Deliver.{tallied};
ghost use Rattle.strm_types.specs.Lines.{ErasesByte, ErasesWord, ErasesAll};
ghost use Rattle.strm_types.specs.Termios.{icanon};
ghost use Rattle.strm_types.specs.declared.rules.Fates.{Fates};
ghost use Rattle.strm_types.specs.Ldterms as ldterms;
ghost use Rattle.strm_types.specs.Ldterms.{sends};
ghost use Rattle.strm_types.specs.Typing.{added, dropped, edits, lost, strikes};
ghost use Rattle.strm_blocks.specs.Blocks.{StoreValue, token};
ghost use Rattle.strm_frame.specs.Hands.{AreIn, HasRoom};
ghost use Rattle.strm_frame.specs.declared.queue_pair.QueuePair.{QueuePair};
ghost use Rattle.strm_ldterm.specs.Stands.{ldterm_in, keeps, IsGathered, IsHeld, paired};
ghost use Rattle.strm_ldterm.specs.Does.{Proceeds};
ghost use Rattle.strm_ldterm.specs.Quiet.{is_quiet, is_dropped};

use crate::grown_messages::{begin, grow};
use crate::ldterm::Ldterm;
use bitflags::Flags;
use strm_blocks::Blocks;
use strm_frame::direction_at;
use strm_types::{Fates, InputModes, Key, LocalModes, Rule, Spot, Way};

// Tells of bytes that came up and have gone by a rule, where there are any.
fn tell_lost(told: &mut Fates, here: Spot, rule: Rule, bytes: usize)
    ensures { (gone : List ℕ) → length gone ≡ bytes → told.new ≡ tallied (lost plain here rule gone) told.old }
{
    if bytes > 0 {
        told.tell(direction_at(Way::Up, here.side), rule, bytes);
    }
}

// The rule by which a key is dropped.
fn rule_of_dropped(key: Key) -> Rule
    requires { is_dropped key ≡ true }
    ensures { (c : ℕ) (p : ldterms.Discipline ℕ) (here : Spot) → strikes plain here key c p ≡ dropped plain here result c p }
{
    match key {
        Key::Start => Rule::FlowKey,
        Key::Ignored => Rule::Igncr,
        Key::Reprint => Rule::ReprintKey,
        Key::Lnext => Rule::LnextKey,
        _ => unreachable!(),
    }
}

// A key that is dropped, by its rule.
fn strike_dropped(ldterm: &Ldterm, here: Spot, key: Key, byte: u8, told: &mut Fates)
    requires { is_dropped key ≡ true }
    ensures { (s : StoreValue) (q : QueuePair) → IsHeld s (paired ldterm.now q) →
        Proceeds s s (paired ldterm.now q) (paired ldterm.now q) 1 [] [] told.old told.new
        (strikes plain here key byte (ldterm_in s (paired ldterm.now q))) }
{
    let _ = ldterm;
    let _ = byte;
    tell_lost(told, here, rule_of_dropped(key), 1);
}

// Tells of the bytes that a key took from the line, by their rule, and of the key.
fn tell_edit(told: &mut Fates, here: Spot, rule: Rule, bytes: usize)
    ensures { (gone : List ℕ) (c : ℕ) → length gone ≡ bytes →
        told.new ≡ tallied (lost plain here rule gone ++ lost plain here EraseKey (c ∷ [])) told.old }
{
    tell_lost(told, here, rule, bytes);
    tell_lost(told, here, Rule::EraseKey, 1);
}

// ERASE takes the last byte of the line.
fn strike_erase(ldterm: &mut Ldterm, here: Spot, byte: u8, told: &mut Fates)
    ensures { (s : StoreValue) (q : QueuePair) → IsHeld s (paired ldterm.old q) →
        Proceeds s s (paired ldterm.old q) (paired ldterm.new q) 1 [] [] told.old told.new
        (edits plain here ErasesByte Erased byte (ldterm_in s (paired ldterm.old q))) }
{
    let _ = byte;
    let gone = ldterm.line.erase_byte();
    tell_edit(told, here, Rule::Erased, gone);
}

// WERASE takes the last word of the line, and the blanks behind it.
fn strike_werase(ldterm: &mut Ldterm, here: Spot, byte: u8, told: &mut Fates)
    ensures { (s : StoreValue) (q : QueuePair) → IsHeld s (paired ldterm.old q) →
        Proceeds s s (paired ldterm.old q) (paired ldterm.new q) 1 [] [] told.old told.new
        (edits plain here ErasesWord Erased byte (ldterm_in s (paired ldterm.old q))) }
{
    let _ = byte;
    let gone = ldterm.line.erase_word();
    tell_edit(told, here, Rule::Erased, gone);
}

// KILL takes the whole line.
fn strike_kill(ldterm: &mut Ldterm, here: Spot, byte: u8, told: &mut Fates)
    ensures { (s : StoreValue) (q : QueuePair) → IsHeld s (paired ldterm.old q) →
        Proceeds s s (paired ldterm.old q) (paired ldterm.new q) 1 [] [] told.old told.new
        (edits plain here ErasesAll Killed byte (ldterm_in s (paired ldterm.old q))) }
{
    let _ = byte;
    let gone = ldterm.line.clear();
    tell_edit(told, here, Rule::Killed, gone);
}

// A byte that is typed in canonical mode. It is added to the line, where there is room. In a full line it is lost under IMAXBEL, and
// else the line is lost with it.
fn add_to_line(ldterm: &mut Ldterm, here: Spot, byte: u8, told: &mut Fates)
    requires { icanon ldterm.old.termios ≡ true }
    ensures { (s : StoreValue) (q : QueuePair) → IsHeld s (paired ldterm.old q) →
        Proceeds s s (paired ldterm.old q) (paired ldterm.new q) 1 [] [] told.old told.new
        (added plain here byte (ldterm_in s (paired ldterm.old q))) }
{
    if ldterm.line.has_room() {
        ldterm.line.push(byte);
        return;
    }
    if ldterm.termios.iflag.contains(InputModes::IMAXBEL) {
        tell_lost(told, here, Rule::LineFull, 1);
        return;
    }
    tell_lost(told, here, Rule::LineOver, ldterm.line.len() + 1);
    ldterm.line.clear();
}

/// Bytes that are typed where no lines are made wait to go up together, behind those that wait already. At least one comes at a time and at
/// most 256, and they take one block of each kind at most.
pub(crate) fn gather<B: Blocks>(ldterm: &mut Ldterm, store: &mut B, bytes: &[u8])
    requires gathers { IfSome ldterm.old.gathered (λ m. IsGathered (B.value store.old) (token m)) }
    requires some { 0 < length bytes.now }
    requires few { length bytes.now ≤ 256 }
    requires room { HasRoom (B.value store.old) 1 }
    ensures { (q : QueuePair) (f : Fates) → let s = B.value store.old in let x = paired ldterm.old q in let p = ldterm_in s x in
        IsHeld s x → AreIn s (λ _. 0) (keeps x) →
        Proceeds s (B.value store.new) x (paired ldterm.new q) 1 [] [] f f (sends [] (record p { gathered = p.gathered ++ bytes.now })) }
{
    match ldterm.gathered.take() {
        Some(message) => ldterm.gathered = Some(grow(store, message, bytes)),
        None => {
            let first = begin(store, bytes);
            store.audit();
            ldterm.gathered = Some(first);
        }
    }
}

// An ordinary byte: it is added to the line, or gathered where no lines are made.
fn strike_ordinary<B: Blocks>(
    ldterm: &mut Ldterm,
    store: &mut B,
    here: Spot,
    byte: u8,
    told: &mut Fates,
)
    requires gathers { IfSome ldterm.old.gathered (λ m. IsGathered (B.value store.old) (token m)) }
    requires room { HasRoom (B.value store.old) 1 }
    ensures { (q : QueuePair) → let s = B.value store.old in let x = paired ldterm.old q in IsHeld s x → AreIn s (λ _. 0) (keeps x) →
        Proceeds s (B.value store.new) x (paired ldterm.new q) 1 [] [] told.old told.new (added plain here byte (ldterm_in s x)) }
{
    if ldterm.termios.lflag.contains(LocalModes::ICANON) {
        add_to_line(ldterm, here, byte, told);
    } else {
        gather(ldterm, store, &[byte]);
    }
}

/// What a key that sends nothing does to the unfinished line, or to the bytes that are gathered (termio(7I)). It takes one block of each kind
/// at most. The cost is in proportion to the bytes that go of the line.
pub(crate) fn strike_quiet<B: Blocks>(
    ldterm: &mut Ldterm,
    store: &mut B,
    here: Spot,
    key: Key,
    byte: u8,
    told: &mut Fates,
)
    requires gathers { IfSome ldterm.old.gathered (λ m. IsGathered (B.value store.old) (token m)) }
    requires room { HasRoom (B.value store.old) 1 }
    requires quiet { is_quiet key ≡ true }
    ensures { (q : QueuePair) → let s = B.value store.old in let x = paired ldterm.old q in IsHeld s x → AreIn s (λ _. 0) (keeps x) →
        Proceeds s (B.value store.new) x (paired ldterm.new q) 1 [] [] told.old told.new (strikes plain here key byte (ldterm_in s x)) }
{
    match key {
        Key::Erase => strike_erase(ldterm, here, byte, told),
        Key::Werase => strike_werase(ldterm, here, byte, told),
        Key::Kill => strike_kill(ldterm, here, byte, told),
        Key::Ordinary => strike_ordinary(ldterm, store, here, byte, told),
        _ => strike_dropped(ldterm, here, key, byte, told),
    }
}

/// Whether a key sends nothing.
pub(crate) fn is_quiet(key: Key) -> bool
    ensures { result ≡ is_quiet key }
{
    matches!(
        key,
        Key::Start
            | Key::Ignored
            | Key::Erase
            | Key::Kill
            | Key::Werase
            | Key::Reprint
            | Key::Lnext
            | Key::Ordinary
    )
}
