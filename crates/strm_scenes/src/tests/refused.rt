//! Scripts where memory is refused: the run says so behind the front of its answers, and the same script goes well once there is
//! memory. `tools/refusals --tests strm_scenes may_be_refused` refuses each request of them in turn.

use super::{FIRST_ANSWERS, FIRST_RUN, NO_MEMORY, WELL, ends_as, plays_over, runs, wrote};
use std::alloc::{AllocError, Global};
use std::process::Abort;
use std::test::Fail;
use strm_blocks::{Reserve, TableStore};
use strm_raw::RawStore;
use strm_script::ScriptEnd;
use strm_trials::memory::{MOST_TAKEN, all_memory};

// A line that is full, a byte that finds no room in it, and its end.
const FULL_LINE: &[u8] =
    b"open\nunlock\nslave\npush s ptem\npush s ldterm\nwrite m \"xxxxxxxxxxxxxxxxxxxxxxxxxxxxxxxxxxxxxxxxxxxxxxxxxxxxxxxxxxxxxxxxxxxxxxxxxxxxxxxxxxxxxxxxxxxxxxxxxxxxxxxxxxxxxxxxxxxxxxxxxxxxxxxxxxxxxxxxxxxxxxxxxxxxxxxxxxxxxxxxxxxxxxxxxxxxxxxxxxxxxxxxxxxxxxxxxxxxxxxxxxxxxxxxxxxxxxxxxxxxxxxxxxxxxxxxxxxxxxxxxxxxxxxxxxxxxxxy\"\nrun 50\nwrite m \"\\n\"\nrun 50\nread s 300\n";

const FULL_ANSWERS: &[u8] =
    b"ok\nok\nok\nok\nok\nok 256\nran 4\nok 1\nran 4\ndata 256 \"xxxxxxxxxxxxxxxxxxxxxxxxxxxxxxxxxxxxxxxxxxxxxxxxxxxxxxxxxxxxxxxxxxxxxxxxxxxxxxxxxxxxxxxxxxxxxxxxxxxxxxxxxxxxxxxxxxxxxxxxxxxxxxxxxxxxxxxxxxxxxxxxxxxxxxxxxxxxxxxxxxxxxxxxxxxxxxxxxxxxxxxxxxxxxxxxxxxxxxxxxxxxxxxxxxxxxxxxxxxxxxxxxxxxxxxxxxxxxxxxxxxxxxxxxxxxxxx\\n\"\n";

const SCRIPTS: [(&[u8], &[u8]); 2] = [(FIRST_RUN, FIRST_ANSWERS), (FULL_LINE, FULL_ANSWERS)];

// Looks at a script's answers: all of them, or the front of them behind a fault.
fn answers(rt: &impl Abort, ended: ScriptEnd, written: &[u8], wanted: &[u8]) {
    if ended == WELL {
        wrote(rt, "a script", 1, written, wanted);
    } else {
        ends_as(rt, "a script", 1, ended, NO_MEMORY);
        assert!(rt; wanted.starts_with(written));
    }
}

// A sink with room for so many bytes, which is asked for once more where it is refused.
fn sink_for(alloc: Global, room: usize) -> Result<Vec<u8>, AllocError> {
    match Vec::with_capacity(alloc, room) {
        Ok(sink) => Ok(sink),
        Err(AllocError) => Vec::with_capacity(alloc, room),
    }
}

// Runs a script, and once more where memory was refused to it.
fn script_goes<B: Reserve>(
    rt: &impl Abort,
    alloc: Global,
    script: &[u8],
    wanted: &[u8],
) -> Result<(), AllocError> {
    let mut reader = script;
    // All of its room is there before: a write that this sink refused would be one of the script's output.
    let mut written = sink_for(alloc, wanted.len())?;
    let ended = runs::<B, _, _>(alloc, &mut reader, &mut written);
    answers(rt, ended, written.as_slice(), wanted);
    if ended != WELL {
        plays_over::<B>(rt, alloc, "a script", script, wanted, WELL);
    }
    Ok(())
}

// Runs each script, and once more where memory was refused to it.
fn runs_all<B: Reserve>(rt: &impl Abort, alloc: Global) -> Result<(), AllocError> {
    for (script, wanted) in &SCRIPTS {
        script_goes::<B>(rt, alloc, *script, *wanted)?;
    }
    Ok(())
}

#[test]
fn any_one_request_of_a_script_may_be_refused(rt: HostRuntime) -> Result<(), Fail> {
    runs_all::<RawStore>(&rt, rt.alloc())?;
    Ok(runs_all::<TableStore>(&rt, rt.alloc())?)
}

// Runs a script where all memory is taken. A heap of which not all can be taken is left out.
fn refuses_script<B: Reserve>(rt: &impl Abort, alloc: Global) -> Result<(), AllocError> {
    let mut reader = FIRST_RUN;
    let mut written = Vec::new(alloc);
    let taken = all_memory(alloc)?;
    if taken.len() >= MOST_TAKEN {
        return Ok(());
    }
    let ended = runs::<B, _, _>(alloc, &mut reader, &mut written);
    drop(taken);
    ends_as(rt, "without memory", 1, ended, NO_MEMORY);
    answers(rt, ended, written.as_slice(), FIRST_ANSWERS);
    Ok(())
}

#[test]
fn a_script_is_refused_where_no_memory_is_left(rt: HostRuntime) -> Result<(), Fail> {
    // Where all addresses are taken, or were, the stack can't grow either, so the scripts are run before, and it is as large as they want.
    runs_all::<RawStore>(&rt, rt.alloc())?;
    runs_all::<TableStore>(&rt, rt.alloc())?;
    refuses_script::<RawStore>(&rt, rt.alloc())?;
    Ok(refuses_script::<TableStore>(&rt, rt.alloc())?)
}
