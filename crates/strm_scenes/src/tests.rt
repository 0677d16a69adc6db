//! Scripts run from memory to memory: tables of titled scenes, and readers, writers and lines that no scene can show.

mod by_line;
mod echo;
mod faults;
mod ioctls;
mod job_control;
mod keys;
mod ledgers;
mod messages;
mod outputs;
mod pckt;
mod pools;
mod ptem;
mod refused;
mod scenes;
mod scripts;
mod sessions;
mod streams;
mod terms;
mod turns;

use crate::tests::faults::plays_slowly;
use crate::tests::scenes::plays_scenes;
use std::alloc::{AllocError, Global};
use std::io::{Read, Write};
use std::process::Abort;
use std::test::Fail;
use strm_blocks::{Reserve, TableStore};
use strm_raw::RawStore;
use strm_script::{Cause, ScriptEnd, ScriptStatus, Sink, Source, run_script};

const WELL: ScriptEnd = ScriptEnd {
    status: ScriptStatus::Whole,
    short: None,
};

const MALFORMED: ScriptEnd = ScriptEnd {
    status: ScriptStatus::Malformed,
    short: None,
};

const READ_FAILED: ScriptEnd = ScriptEnd {
    status: ScriptStatus::Broken(Cause::Input),
    short: None,
};

const WRITE_FAILED: ScriptEnd = ScriptEnd {
    status: ScriptStatus::Broken(Cause::Output),
    short: None,
};

const NO_MEMORY: ScriptEnd = ScriptEnd {
    status: ScriptStatus::Broken(Cause::Memory),
    short: None,
};

// A terminal's session: a line is typed, and read on both sides.
const FIRST_RUN: &[u8] = b"open\nunlock\nslave\npush s ptem\npush s ldterm\nwrite m \"ls\\r\"\n\
    run 50\nread s 100\nread m 100\n";

const FIRST_ANSWERS: &[u8] = b"ok\nok\nok\nok\nok\nok 3\nran 4\ndata 3 \"ls\\n\"\n\
    data 4 \"ls\\r\\n\"\n";

// Compares how the run of this title and number ended with what is wanted of it.
fn ends_as(rt: &impl Abort, title: &str, number: usize, ended: ScriptEnd, wanted: ScriptEnd) {
    assert_eq!(rt; ended, wanted, "{title}, {number}");
}

// The number of the first line, from 1, in which two texts differ or one of them ends.
fn first_other(one: &[u8], other: &[u8]) -> usize {
    let mut line = 1usize;
    for at in 0..one.len() {
        if other.get(at) != Some(&one[at]) {
            break;
        }
        if one[at] == b'\n' {
            line = line.saturating_add(1);
        }
    }
    line
}

// Compares what the run of this title and number wrote with what is wanted of it.
fn wrote(rt: &impl Abort, title: &str, number: usize, written: &[u8], wanted: &[u8]) {
    let answer = first_other(written, wanted);
    assert!(rt; written == wanted, "{title}, {number}, answer {answer}");
}

// Runs a script over a store, and says how it ended.
fn runs<B: Reserve, R: Read, W: Write>(alloc: Global, reader: &mut R, writer: &mut W) -> ScriptEnd {
    run_script::<B, _, _>(alloc, &mut Source::new(reader), &mut Sink::new(writer))
}

// Runs a script over a store and compares what it writes, its status and its first short line.
fn plays_over<B: Reserve>(
    rt: &impl Abort,
    alloc: Global,
    title: &str,
    script: &[u8],
    answers: &[u8],
    end: ScriptEnd,
) {
    let mut reader = script;
    let mut written = Vec::new(alloc);
    let ended = runs::<B, _, _>(alloc, &mut reader, &mut written);
    wrote(rt, title, script.len(), written.as_slice(), answers);
    ends_as(rt, title, script.len(), ended, end);
}

// Runs a script over the program's store, and once more over the plain one.
fn plays(
    rt: &impl Abort,
    alloc: Global,
    title: &str,
    script: &[u8],
    answers: &[u8],
    end: ScriptEnd,
) {
    plays_over::<RawStore>(rt, alloc, title, script, answers, end);
    plays_over::<TableStore>(rt, alloc, title, script, answers, end);
}

// All tables of scenes, in the order in which docs/SCENES.md has their manual pages.
const TABLES: [&str; 26] = [
    terms::TERMS,
    scripts::OPENING,
    scripts::WRITING_AND_READING,
    messages::MESSAGES,
    streams::STREAMS,
    ioctls::IOCTLS,
    ioctls::POPPED,
    scripts::TURNS,
    turns::TAKEN_OFF,
    turns::FEW_BLOCKS,
    keys::LINES,
    keys::EDITING,
    keys::SIGNALS,
    keys::FLOW,
    echo::BYTES,
    echo::RUBBING_OUT,
    echo::FULL,
    echo::NEWLINES,
    outputs::OUTPUT,
    outputs::STOPPED,
    ptem::PTEM,
    pckt::PCKT,
    sessions::SESSIONS,
    job_control::JOB_CONTROL,
    scripts::LINES_AND_TEXTS,
    ledgers::LEDGERS,
];

#[test]
fn each_scene_answers_as_it_says(rt: HostRuntime) -> Result<(), Fail> {
    for table in &TABLES {
        plays_scenes(&rt, rt.alloc(), *table)?;
    }
    Ok(())
}

#[test]
fn an_empty_script_says_nothing(rt: HostRuntime) {
    plays(&rt, rt.alloc(), "an empty script", b"", b"", WELL);
}

// Scripts whose last line lacks its LF, their answers, and how they end.
const LAST_LINES: [(&[u8], &[u8], ScriptEnd); 2] = [
    (b"open\nunlock", b"ok\nok\n", WELL),
    (
        b"open\nunlock\nslave\nwrite m \"ab\\x0",
        b"ok\nok\nok\nerr line 4\n",
        MALFORMED,
    ),
];

#[test]
fn a_last_line_may_lack_its_end(rt: HostRuntime) {
    for case in &LAST_LINES {
        plays(&rt, rt.alloc(), "no LF", case.0, case.1, case.2);
    }
}

// Lines that are malformed.
const MALFORMED_LINES: [&[u8]; 59] = [
    b"ioctl m",
    b"ioctl m TCGET",
    b"ioctl s TCGETS \"x\"",
    b"ioctl s TCSETS",
    b"ioctl s TCSETSX \"\"",
    b"ioctl s TIOCSWINSZ 1 2 3",
    b"ioctl s TIOCSWINSZ 1 2 3 70000",
    b"ioctl s TIOCSWINSZ 1 2 3 4 5",
    b"ioctl s TIOCSIGNAL 256",
    b"ioctl s raw 1",
    b"ioctl s raw \"x\"",
    b"ioctl s raw 4294967296 \"x\"",
    b"poll m",
    b"poll m 4294967296",
    b"signals",
    b"signals x",
    b"put m 0 -",
    b"put m 0 - - ",
    b"put m any - -",
    b"put m 0 -- -",
    b"put m 0 \"a\"\"b\"",
    b"put m 0 \"a\\\" \"b\"",
    b"put m 4294967296 - -",
    b"get m any 1",
    b"get m any 1 2 3",
    b"get m low 1 2",
    b"mode m",
    b"mode m NORM",
    b"close",
    b"close x",
    b"close m ",
    b"push s",
    b"push s ",
    b"push s Foo",
    b"push s ld-term",
    b"push s abcdefghi",
    b"push s foo 1",
    b"pop m 1",
    b"look",
    b"flush m",
    b"flush m q",
    b"flush m wr",
    b"flush m r ",
    b"flush m r x",
    b"flush m r 4294967296",
    b"flush m rw1",
    b"show",
    b"show m.head.r",
    b"ledger",
    b"ledger ",
    b"ledger xx",
    b"ledger m",
    b"ledger ms ",
    b"ledger  ms",
    b"cut ",
    b"cut m",
    b"run 4294967296",
    b"run 00000000001",
    b"unlock  ",
];

#[test]
fn what_spells_no_command_is_malformed(rt: HostRuntime) {
    for line in &MALFORMED_LINES {
        plays(
            &rt,
            rt.alloc(),
            "malformed",
            line,
            b"err line 1\n",
            MALFORMED,
        );
    }
}

static SPACES: [u8; 4096] = [b' '; 4096];

// Puts texts one behind the other.
fn joined(alloc: Global, texts: &[&[u8]]) -> Result<Vec<u8>, AllocError> {
    let mut all = Vec::new(alloc);
    for text in texts {
        all.extend_from_slice(*text)?;
    }
    Ok(all)
}

#[test]
fn a_line_has_4096_bytes_at_most(rt: HostRuntime) -> Result<(), Fail> {
    let alloc = rt.alloc();
    let whole = joined(alloc, &[b"#", &SPACES[1..], b"\nopen\n#"])?;
    plays(&rt, alloc, "4096 bytes", whole.as_slice(), b"ok\n", WELL);
    let script = joined(alloc, &[whole.as_slice(), &SPACES])?;
    let answers = b"ok\nerr line 3\n";
    plays(
        &rt,
        alloc,
        "4097 bytes",
        script.as_slice(),
        answers,
        MALFORMED,
    );
    Ok(())
}

#[test]
fn a_large_script_runs_on_one_pair(rt: HostRuntime) -> Result<(), Fail> {
    let mut script = Vec::new(rt.alloc());
    let mut answers = Vec::new(rt.alloc());
    script.extend_from_slice(b"open\nunlock\nslave\n")?;
    answers.extend_from_slice(b"ok\nok\nok\n")?;
    for _ in 0..2000 {
        script.extend_from_slice(b"write m \"ab\"\nrun 9\nread s 9\n")?;
        answers.extend_from_slice(b"ok 2\nran 1\ndata 2 \"ab\"\n")?;
    }
    plays_slowly(&rt, rt.alloc(), script.as_slice(), answers.as_slice(), 1);
    plays(
        &rt,
        rt.alloc(),
        "a large script",
        script.as_slice(),
        answers.as_slice(),
        WELL,
    );
    Ok(())
}

#[test]
fn a_journal_that_is_full_goes_on_behind_a_cut(rt: HostRuntime) -> Result<(), Fail> {
    let mut script = Vec::new(rt.alloc());
    let mut answers = Vec::new(rt.alloc());
    script.extend_from_slice(b"open\n")?;
    answers.extend_from_slice(b"ok\n")?;
    for _ in 1..8192 {
        script.extend_from_slice(b"unlock\n")?;
        answers.extend_from_slice(b"ok\n")?;
    }
    script.extend_from_slice(b"unlock\ncut\nunlock\ncut\n")?;
    answers.extend_from_slice(b"err JournalFull\nok 8192\nok\nok 1\n")?;
    plays(
        &rt,
        rt.alloc(),
        "a full journal",
        script.as_slice(),
        answers.as_slice(),
        WELL,
    );
    Ok(())
}
