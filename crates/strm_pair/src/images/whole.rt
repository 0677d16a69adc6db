//! The image of a pair: both streams, the enabled queues and the ledgers.

ghost use Rattle.std.specs.Prelude.{◌≡◌, length, min};
ghost use Rattle.strm_image.specs.Image.{image};
ghost use Rattle.strm_image.specs.Sinks.{front_over, most_counted, put, sink_name};
ghost use Rattle.strm_image.specs.declared.versions.Version.TheVariants.{Second};
ghost use Rattle.strm_image.specs.HasImage.{imaged};
ghost use Rattle.strm_pair.specs.Pairs.{AreHeld, state_in};

use crate::images::streams::put_stream;
use crate::streams::Streams;
use std::mem;
use strm_blocks::Blocks;
use strm_image::Sink;
use strm_image::writing::{put_account, put_enabled, put_front};
use strm_types::Fates;

// Writes the image of a pair between two calls: of its streams over their store, and of what has gone by each rule.
fn put_image<'a, B: Blocks>(store: &B, streams: &Streams, fates: &Fates, out: Sink<'a>) -> Sink<'a>
    requires { AreHeld (B.value store.now) streams.now }
    ensures { result ≡ put (image.text (Second, imaged (state_in (B.value store.now) streams.now) fates.now)) out.entry }
{
    let ends = &streams.ends;
    let mut out = out;
    put_front(
        &mut out,
        ends.master.opened,
        ends.slave.opened,
        streams.locked,
        streams.next_ioctl,
    );
    let out = put_stream(store, &ends.master, out);
    let mut out = put_stream(store, &ends.slave, out);
    put_enabled(&mut out, streams.enabled.as_slice());
    put_account(&mut out, &streams.books.master, &fates.from_master);
    put_account(&mut out, &streams.books.slave, &fates.from_slave);
    out
}

// The same behind what a sink was given before.
fn put_behind<B: Blocks>(store: &B, streams: &Streams, fates: &Fates, out: &mut Sink<'_>)
    requires { AreHeld (B.value store.now) streams.now }
    ensures same_reference { sink_name out.new ≡ sink_name out.old }
    ensures text { out.new ≡ put (image.text (Second, imaged (state_in (B.value store.now) streams.now) fates.now)) out.old }
{
    // Lent and not handed on: whoever lent the buffer knows it again behind a reference alone.
    let taken = mem::replace(out, Sink::new(&mut []));
    *out = put_image(store, streams, fates, taken);
}

/// Writes the image of a pair between two calls to the front of a buffer, as far as there is room, and answers how long it is, as far as
/// 64 bits hold that. The cost is two steps for each block on the queues, and two for each band of a queue where one above 0 has marks of
/// its own or a writer waits for it.
pub(crate) fn image_into<B: Blocks>(
    store: &B,
    streams: &Streams,
    fates: &Fates,
    out: &mut [u8],
) -> usize
    requires { AreHeld (B.value store.now) streams.now }
    ensures text { out.new ≡ front_over (image.text (Second, imaged (state_in (B.value store.now) streams.now) fates.now)) out.old }
    ensures length { result ≡ min (length (image.text (Second, imaged (state_in (B.value store.now) streams.now) fates.now))) most_counted }
{
    let mut sink = Sink::new(out);
    put_behind(store, streams, fates, &mut sink);
    sink.count()
}
