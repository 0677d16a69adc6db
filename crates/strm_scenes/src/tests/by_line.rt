//! Scripts that are handed over line by line, or piece by piece.

use super::{FIRST_ANSWERS, FIRST_RUN};
use std::alloc::Global;
use std::process::Abort;
use strm_blocks::{Reserve, TableStore};
use strm_raw::RawStore;
use strm_script::{Session, Stop};

type Taken = Result<(), Stop>;

// A step of a session, and what must come of it.
enum Step<'a> {
    // These bytes are taken so.
    Take(&'a [u8], Taken),
    // Pieces of seven bytes of this are all taken.
    Pieces(&'a [u8]),
    // The input ends so.
    Finish(Taken),
    // These answers are kept.
    Says(&'a [u8]),
    // Bytes are taken, their answers are these, and none is kept once they are cleared.
    Line(&'a [u8], &'a [u8]),
    // The first short line is this one.
    Short(Option<u64>),
    // A line has opened the pair, or none has.
    HasPair(bool),
}

// A session, line by line, the last of which lacks its LF and is answered at the end of the input.
const LINES: [Step<'static>; 14] = [
    Step::HasPair(false),
    Step::Line(b"# a script\n", b""),
    Step::Line(b"read m 1\n", b"err ENXIO\n"),
    Step::Line(b"open 33\n", b"ok\n"),
    Step::Line(b"unlock\n", b"ok\n"),
    Step::Line(b"slave\n", b"ok\n"),
    Step::Line(b"write m \"a\"\n", b"ok 1\n"),
    Step::Line(b"write m \"a\"\n", b"err ENOSR\n"),
    Step::Line(b"run 9\n", b"ran 1\n"),
    Step::Line(b"read s 9", b""),
    Step::Finish(Ok(())),
    Step::Says(b"data 1 \"a\"\n"),
    Step::Short(Some(7)),
    Step::HasPair(true),
];

const PIECES: [Step<'static>; 3] = [
    Step::Pieces(FIRST_RUN),
    Step::Finish(Ok(())),
    Step::Says(FIRST_ANSWERS),
];

const MALFORMED_LINE: [Step<'static>; 2] = [
    Step::Take(b"open\nopen it\nslave\n", Err(Stop::Malformed)),
    Step::Says(b"ok\nerr line 2\n"),
];

const MALFORMED_END: [Step<'static>; 3] = [
    Step::Take(b"opens", Ok(())),
    Step::Finish(Err(Stop::Malformed)),
    Step::Says(b"err line 1\n"),
];

const SESSIONS: [(&str, &[Step<'static>]); 4] = [
    ("line by line", &LINES),
    ("in pieces", &PIECES),
    ("a malformed line", &MALFORMED_LINE),
    ("a malformed line without its end", &MALFORMED_END),
];

fn takes<B: Reserve>(alloc: Global, session: &mut Session<B>, bytes: &[u8]) -> Taken {
    session.take(alloc, bytes)
}

fn finishes<B: Reserve>(alloc: Global, session: &mut Session<B>) -> Taken {
    session.finish(alloc)
}

fn says<B: Reserve>(session: &Session<B>, wanted: &[u8]) -> bool {
    session.answers() == wanted
}

fn clear<B: Reserve>(session: &mut Session<B>) {
    session.clear_answers();
}

fn short<B: Reserve>(session: &Session<B>) -> Option<u64> {
    session.short()
}

fn has_pair<B: Reserve>(session: &Session<B>) -> bool {
    session.pair().is_some()
}

fn takes_pieces<B: Reserve>(alloc: Global, session: &mut Session<B>, bytes: &[u8]) -> bool {
    for piece in bytes.chunks(7) {
        if takes(alloc, session, piece) != Ok(()) {
            return false;
        }
    }
    true
}

fn answers<B: Reserve>(
    alloc: Global,
    session: &mut Session<B>,
    bytes: &[u8],
    wanted: &[u8],
) -> bool {
    let taken = takes(alloc, session, bytes);
    let is_said = says(session, wanted);
    clear(session);
    taken == Ok(()) && is_said && says(session, b"")
}

// Whether what must come of a step comes of it.
fn goes<B: Reserve>(alloc: Global, session: &mut Session<B>, step: &Step<'_>) -> bool {
    match step {
        Step::Take(bytes, taken) => takes(alloc, session, bytes) == *taken,
        Step::Pieces(bytes) => takes_pieces(alloc, session, bytes),
        Step::Finish(ended) => finishes(alloc, session) == *ended,
        Step::Says(wanted) => says(session, wanted),
        Step::Line(bytes, wanted) => answers(alloc, session, bytes, wanted),
        Step::Short(line) => short(session) == *line,
        Step::HasPair(is_there) => has_pair(session) == *is_there,
    }
}

fn follow<B: Reserve>(
    rt: &impl Abort,
    alloc: Global,
    session: &mut Session<B>,
    title: &str,
    steps: &[Step<'_>],
) {
    for index in 0..steps.len() {
        assert!(rt;
            goes(alloc, session, &steps[index]),
            "{title}, step {index}"
        );
    }
}

fn plays<B: Reserve>(rt: &impl Abort, alloc: Global, title: &str, steps: &[Step<'_>]) {
    let mut session: Session<B> = Session::new(alloc);
    follow(rt, alloc, &mut session, title, steps);
}

#[test]
fn a_session_takes_any_piece_of_a_script_and_stops_at_a_malformed_line(rt: HostRuntime) {
    for (title, steps) in &SESSIONS {
        plays::<RawStore>(&rt, rt.alloc(), *title, *steps);
        plays::<TableStore>(&rt, rt.alloc(), *title, *steps);
    }
}
