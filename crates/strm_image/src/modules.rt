//! Modules as they stand in a text.

ghost use Rattle.std.specs.Prelude.{◌≡◌, ◌≤◌, [], length, map};
ghost use Rattle.strm_types.specs.Modules.{stands};
ghost use Rattle.strm_types.specs.Queue.{is_none_left};
ghost use Rattle.strm_laws.specs.Stacked.{module_name};
ghost use Rattle.strm_image.specs.Codes.{module_kind};
ghost use Rattle.strm_image.specs.Format.{Reads, at_end, byte, bytes_of, counted, gather_from, if_there, only, u32};
ghost use Rattle.strm_image.specs.Modules.{has_name, is_column, kind_body, ldterm, may_stand, module_below, module_format, modules, next_names, pair};
ghost use Rattle.strm_image.specs.Modules.{ptem, settings, termios, winsize};
ghost use Rattle.strm_image.specs.ModuleTexts.{kind_now, ldterm_now, module_now, modules_now, names_now, own_pair_now, pair_now, ptem_now};

use crate::codes::{flag_at, module_kind_at};
use crate::fields::{byte_at, bytes_at, u16_at, u32_at};
use crate::queues::{QueueText, queues_at};
use crate::versions::{QueueKind, Version};
use arrayvec::ArrayVec;
use strm_types::{
    COLUMN_MAX, InputModes, LocalModes, MODULES, ModuleName, OutputModes, SETTINGS_MAX, Termios,
    Winsize,
};

/// An `ldterm` by itself, where it stands in a text.
#[derive(Clone, Copy)]
pub struct LdtermText<'a> {
    pub termios: Termios,
    pub stopped: bool,
    pub after_lnext: bool,
    pub column: u32,
    pub line: &'a [u8],
}

/// A `ptem`, as it stands in a text.
#[derive(Clone, Copy)]
pub struct PtemText {
    pub termios: Termios,
    pub window: Winsize,
}

/// A module of a user's own by itself, where it stands in a text.
#[derive(Clone, Copy)]
pub struct OwnText<'a> {
    pub number: u8,
    pub settings: &'a [u8],
}

/// What a module is by itself, where it stands in a text.
#[derive(Clone, Copy, Default)]
pub enum KindText<'a> {
    Ldterm(LdtermText<'a>),
    Ptem(PtemText),
    #[default]
    Pckt,
    Own(OwnText<'a>),
}

/// The queues of a module, where they stand in a text.
#[derive(Clone, Copy)]
pub struct QueuesText<'a> {
    pub read: QueueText<'a>,
    pub write: QueueText<'a>,
}

/// A module, where it stands in a text: what it is by itself, and its queues where those of its name have any.
#[derive(Clone, Copy, Default)]
pub struct ModuleText<'a> {
    pub kind: KindText<'a>,
    pub queues: Option<QueuesText<'a>>,
}

// What a terminal is set to.
#[tactic(auto, unfolding(crate::specs::Modules::termios))]
fn termios_at(text: &[u8]) -> Option<(Termios, &[u8])>
    ensures { Reads (λ x. (x.0, x.1.now)) result (termios.read text.now) }
{
    let (iflag, rest) = u32_at(text)?;
    let (oflag, rest) = u32_at(rest)?;
    let (cflag, rest) = u32_at(rest)?;
    let (lflag, rest) = u32_at(rest)?;
    let (bytes, rest) = bytes_at(rest, 19)?;
    let mut control = [0; 19];
    control.copy_from_slice(bytes);
    let termios = Termios {
        iflag: InputModes(iflag),
        oflag: OutputModes(oflag),
        cflag,
        lflag: LocalModes(lflag),
        control,
    };
    Some((termios, rest))
}

// The size of a window.
#[tactic(auto, unfolding(crate::specs::Modules::winsize))]
fn winsize_at(text: &[u8]) -> Option<(Winsize, &[u8])>
    ensures { Reads (λ x. (x.0, x.1.now)) result (winsize.read text.now) }
{
    let (rows, rest) = u16_at(text)?;
    let (columns, rest) = u16_at(rest)?;
    let (x_pixels, rest) = u16_at(rest)?;
    let (y_pixels, rest) = u16_at(rest)?;
    let window = Winsize {
        rows,
        columns,
        x_pixels,
        y_pixels,
    };
    Some((window, rest))
}

// The column of output.
fn column_at(text: &[u8]) -> Option<(u32, &[u8])>
    ensures { Reads (λ x. (x.0, x.1.now)) result ((only is_column u32).read text.now) }
{
    let (column, rest) = u32_at(text)?;
    if column > u32::from(COLUMN_MAX) {
        return None;
    }
    Some((column, rest))
}

// The unfinished line.
fn line_at(text: &[u8]) -> Option<(&[u8], &[u8])>
    ensures { Reads (λ x. (x.0.now, x.1.now)) result ((counted byte bytes_of).read text.now) }
{
    let (length, rest) = byte_at(text)?;
    bytes_at(rest, usize::from(length))
}

#[tactic(auto, unfolding(crate::specs::Modules::ldterm))]
fn ldterm_at(text: &[u8]) -> Option<(LdtermText<'_>, &[u8])>
    ensures { Reads (λ x. (ldterm_now x.0, x.1.now)) result (ldterm.read text.now) }
{
    let (termios, rest) = termios_at(text)?;
    let (stopped, rest) = flag_at(rest)?;
    let (after_lnext, rest) = flag_at(rest)?;
    let (column, rest) = column_at(rest)?;
    let (line, rest) = line_at(rest)?;
    let found = LdtermText {
        termios,
        stopped,
        after_lnext,
        column,
        line,
    };
    Some((found, rest))
}

#[tactic(auto, unfolding(crate::specs::Modules::ptem))]
fn ptem_at(text: &[u8]) -> Option<(PtemText, &[u8])>
    ensures { Reads (λ x. (ptem_now x.0, x.1.now)) result (ptem.read text.now) }
{
    let (termios, rest) = termios_at(text)?;
    let (window, rest) = winsize_at(rest)?;
    Some((PtemText { termios, window }, rest))
}

// What a module of a user's own is set to.
#[tactic(auto, unfolding(crate::specs::Modules::settings))]
fn settings_at(text: &[u8]) -> Option<(&[u8], &[u8])>
    ensures { Reads (λ x. (x.0.now, x.1.now)) result (settings.read text.now) }
{
    let (count, rest) = u16_at(text)?;
    if usize::from(count) > SETTINGS_MAX {
        return None;
    }
    bytes_at(rest, usize::from(count))
}

// Whether a module of a name may stand in an image of a version: one of a user's own in version 2 alone.
fn may_stand(version: Version, name: ModuleName) -> bool
    ensures { result ≡ may_stand version name }
{
    match version {
        Version::First => !matches!(name, ModuleName::Own(_)),
        Version::Second => true,
    }
}

// The name of a module.
fn name_at(text: &[u8], version: Version) -> Option<(ModuleName, &[u8])>
    ensures { Reads (λ x. (x.0, x.1.now)) result ((only (may_stand version) module_kind).read text.now) }
{
    let (name, rest) = module_kind_at(text)?;
    if !may_stand(version, name) {
        return None;
    }
    Some((name, rest))
}

// What a module of a name is by itself.
fn kind_at(text: &[u8], name: ModuleName) -> Option<(KindText<'_>, &[u8])>
    ensures { Reads (λ x. (kind_now x.0, x.1.now)) result ((kind_body name).read text.now) }
{
    match name {
        ModuleName::Ldterm => {
            let (found, rest) = ldterm_at(text)?;
            Some((KindText::Ldterm(found), rest))
        }
        ModuleName::Ptem => {
            let (found, rest) = ptem_at(text)?;
            Some((KindText::Ptem(found), rest))
        }
        ModuleName::Pckt => Some((KindText::Pckt, text)),
        ModuleName::Own(number) => {
            let (settings, rest) = settings_at(text)?;
            Some((KindText::Own(OwnText { number, settings }), rest))
        }
    }
}

// The queues of a module.
#[tactic(auto, unfolding(crate::specs::Modules::pair))]
fn pair_at(text: &[u8], version: Version) -> Option<(QueuesText<'_>, &[u8])>
    ensures { Reads (λ x. (pair_now x.0, x.1.now)) result ((pair version).read text.now) }
{
    let (kind, other) = (QueueKind::ModuleRead, QueueKind::ModuleWrite);
    let ((read, write), rest) = queues_at(text, version, kind, other)?;
    Some((QueuesText { read, write }, rest))
}

// The queues of a module, where it has any.
fn pair_if(text: &[u8], version: Version, has: bool) -> Option<(Option<QueuesText<'_>>, &[u8])>
    ensures { Reads (λ x. (own_pair_now x.0, x.1.now)) result ((if_there has (pair version)).read text.now) }
{
    if !has {
        return Some((None, text));
    }
    let (found, rest) = pair_at(text, version)?;
    Some((Some(found), rest))
}

// The module at the front of a text.
#[tactic(auto, unfolding(crate::specs::Modules::module_format))]
fn module_at(text: &[u8], version: Version) -> Option<(ModuleText<'_>, &[u8])>
    ensures { Reads (λ x. (module_now x.0, x.1.now)) result ((module_format version).read text.now) }
{
    let (name, rest) = name_at(text, version)?;
    let (kind, rest) = kind_at(rest, name)?;
    let (queues, rest) = pair_if(rest, version, name.has_queues())?;
    Some((ModuleText { kind, queues }, rest))
}

impl<'a> ModuleText<'a> {
    /// The name of the module.
    pub fn name(&self) -> ModuleName
        ensures { result ≡ module_name (module_now self.now) }
    {
        match self.kind {
            KindText::Ldterm(_) => ModuleName::Ldterm,
            KindText::Ptem(_) => ModuleName::Ptem,
            KindText::Pckt => ModuleName::Pckt,
            KindText::Own(found) => ModuleName::Own(found.number),
        }
    }
}

/// Whether a module of a name stands among others.
pub fn has_name(found: &[ModuleText<'_>], name: ModuleName) -> bool
    ensures { result ≡ has_name name (names_now found.now) }
{
    for module in found {
        if module.name().is_same(name) {
            return true;
        }
    }
    false
}

// A module below others, none of which is its own.
#[tactic(auto, unfolding(crate::specs::Modules::module_below))]
fn module_below<'a>(
    text: &'a [u8],
    version: Version,
    above: &[ModuleText<'_>],
) -> Option<(ModuleText<'a>, &'a [u8])>
    ensures { Reads (λ x. (module_now x.0, x.1.now)) result ((module_below version (names_now above.now)).read text.now) }
{
    let (module, rest) = module_at(text, version)?;
    if has_name(above, module.name()) {
        return None;
    }
    Some((module, rest))
}

// So many modules.
fn pass_modules(
    text: &[u8],
    count: u8,
    version: Version,
) -> Option<(ArrayVec<ModuleText<'_>, MODULES>, &[u8])>
    requires { count ≤ MODULES }
    ensures { Reads (λ x. (modules_now x.0.items, x.1.now)) result
        (gather_from next_names (module_below version) at_end [] [] count text.now) }
{
    let mut found = ArrayVec::new();
    let mut rest = text;
    for _ in 0..count {
        let (module, after) = module_below(rest, version, found.as_slice())?;
        found.push(module);
        rest = after;
    }
    Some((found, rest))
}

/// The modules of a stream from the top, three at most and each once.
#[tactic(auto, unfolding(crate::specs::Modules::modules))]
pub fn modules_at(
    text: &[u8],
    version: Version,
) -> Option<(ArrayVec<ModuleText<'_>, MODULES>, &[u8])>
    ensures { Reads (λ x. (modules_now x.0.items, x.1.now)) result ((modules version).read text.now) }
{
    let (count, rest) = byte_at(text)?;
    if usize::from(count) > MODULES {
        return None;
    }
    pass_modules(rest, count, version)
}

/// Whether no module stands there.
pub fn is_none(found: &[ModuleText<'_>]) -> bool
    ensures { result ≡ is_none_left (modules_now found.now) }
{
    matches!(found, [])
}

/// Whether a module of a name stands there.
pub fn stands(found: &[ModuleText<'_>], name: ModuleName) -> bool
    ensures { result ≡ stands module_name name (modules_now found.now) }
{
    has_name(found, name)
}
