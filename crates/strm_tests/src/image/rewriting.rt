//! Writes an image that was read, in version 2.

ghost use Rattle.std.specs.Prelude.{◌<◌, ◌≤◌, length, map};
ghost use Rattle.strm_types.specs.declared.limits.TheConstants.{SETTINGS_MAX};
ghost use Rattle.strm_types.specs.Slots.{map_slot};
ghost use Rattle.strm_image.specs.FlowTexts.{flow_now};
ghost use Rattle.strm_image.specs.Written.{IsShortSlot};

use strm_image::writing::*;
use strm_image::{
    AccountText, FIRST_BANDS, Flow, FlowsText, KindText, LdtermText, MessagesText, ModuleText,
    QueueKind, QueueText, Sink, StateText, StreamText, Version, band_behind, few_flows_at,
    message_behind,
};
use strm_types::{BANDS, Band, Book, HIGH_PRIORITY_RANK, Marks, SETTINGS_MAX, Slot};

/// The flow control of all bands.
#[derive(Clone, Copy)]
pub struct AllBands(pub [Flow; BANDS]);

impl Bands for AllBands {
    ghost flows = { λ b. map flow_now b.0 };

    fn flow(&self, band: u8) -> Flow {
        self.0[usize::from(band)]
    }

    fn shared_above(&self) -> Option<Marks> {
        None
    }
}

// What a module of a user's own is set to, which is `SETTINGS_MAX` bytes at most.
fn within(bytes: &[u8]) -> &[u8]
    ensures { length result.now ≤ SETTINGS_MAX }
{
    &bytes[..bytes.len().min(SETTINGS_MAX)]
}

// The bytes of a line or the signals, which are fewer than 256.
fn few(bytes: &[u8]) -> &[u8]
    ensures { length result.now < 256 }
{
    &bytes[..bytes.len().min(255)]
}

fn put_messages(out: &mut Sink, messages: &MessagesText<'_>) {
    put_u32(out, messages.count);
    let mut rest = messages.text;
    let mut rank = HIGH_PRIORITY_RANK;
    for _ in 0..messages.count {
        if let Some((message, after)) = message_behind(
            rest,
            messages.version,
            messages.queue,
            rank,
        ) {
            put_message(
                out,
                message.kind,
                Band(message.band),
                message.control,
                message.body,
            );
            rank = message.rank();
            rest = after;
        }
    }
}

// All bands, where the first ones are listed.
fn widened(few: &[Flow; FIRST_BANDS]) -> AllBands {
    let last = Flow {
        want_write: false,
        ..few[FIRST_BANDS - 1]
    };
    let mut all = [last; BANDS];
    all[..FIRST_BANDS].copy_from_slice(few);
    AllBands(all)
}

// All bands, where those are listed that aren't as at first.
fn spread(flows: &FlowsText<'_>) -> AllBands {
    let first = flows.queue.first_flow();
    let mut all = [first; BANDS];
    let mut rest = flows.text;
    let mut from = 0;
    for _ in 0..flows.count {
        if let Some(((band, flow), after)) = band_behind(rest, &first, from) {
            all[usize::from(band)] = flow;
            from = usize::from(band) + 1;
            rest = after;
        }
    }
    AllBands(all)
}

// The flow control of all bands, read again.
fn bands_of(flows: &FlowsText<'_>) -> AllBands {
    if matches!(flows.version, Version::First) {
        if let Some(found) = few_flows_at(flows.text) {
            let few = found.0;
            return widened(&few);
        }
    }
    spread(flows)
}

pub fn put_queue(out: &mut Sink, queue: &QueueText<'_>, at: QueueKind) {
    put_queue_flags(out, queue.want_read, queue.no_enable);
    let bands = bands_of(&queue.flows);
    put_flows(out, &bands, at);
    put_messages(out, &queue.messages);
}

fn put_ldterm(out: &mut Sink, l: &LdtermText<'_>) {
    put_termios(out, &l.termios);
    put_flag(out, l.stopped);
    put_flag(out, l.after_lnext);
    put_u32(out, l.column);
    put_line(out, few(l.line));
}

fn put_module(out: &mut Sink, module: &ModuleText<'_>) {
    put_module_name(out, module.name());
    match &module.kind {
        KindText::Ldterm(l) => put_ldterm(out, l),
        KindText::Ptem(p) => put_ptem(out, &p.termios, p.window),
        KindText::Pckt => {}
        KindText::Own(own) => put_settings(out, within(own.settings)),
    }
    if let Some(queues) = &module.queues {
        put_queue(out, &queues.read, QueueKind::ModuleRead);
        put_queue(out, &queues.write, QueueKind::ModuleWrite);
    }
}

fn short(slot: Slot<&[u8]>) -> Slot<&[u8]>
    ensures { IsShortSlot (map_slot (λ b. b.now) result) }
{
    match slot {
        Slot::Answered {
            number,
            command,
            acked,
            error,
            body,
        } => Slot::Answered {
            number,
            command,
            acked,
            error,
            body: few(body),
        },
        other => other,
    }
}

fn put_stream(out: &mut Sink, stream: &StreamText<'_>) {
    put_read_mode(out, stream.read_mode);
    put_control_mode(out, stream.control_mode);
    put_head_bits(out, &stream.bits);
    put_signals(out, few(stream.signals));
    put_slot(out, short(stream.slot));
    put_u8(out, stream.modules.len() as u8);
    for module in stream.modules.as_slice() {
        put_module(out, module);
    }
    put_queue(out, &stream.head, QueueKind::Head);
    put_queue(out, &stream.driver, QueueKind::Driver);
}

fn put_ledger(out: &mut Sink, account: &AccountText) {
    let book = Book {
        written: account.written,
        made: account.made,
    };
    put_account(out, &book, &account.fates);
}

/// The image of a state.
pub fn put_state(out: &mut Sink, state: &StateText<'_>) {
    let opened = &state.opened;
    put_front(
        out,
        opened.master,
        opened.slave,
        state.locked,
        state.next_ioctl,
    );
    put_stream(out, &state.streams.master);
    put_stream(out, &state.streams.slave);
    put_enabled(out, state.enabled.as_slice());
    put_ledger(out, &state.accounts.master);
    put_ledger(out, &state.accounts.slave);
}
