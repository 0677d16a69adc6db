//! A terminal's session in each small pool of blocks.

use super::plays;
use std::test::Fail;
use strm_script::{ScriptEnd, ScriptStatus};

// From how many blocks of each kind up to how many the session is answered so, and its first short line. A close wants 2 blocks free, a push 8, and
// this write 33. Each byte that is typed wants 32 and what the echo before it holds, and so does each that is shown.
const POOLS: [(u32, u32, &[u8], Option<u64>); 6] = [
    (
        1,
        1,
        b"ok\nok\nok\nerr ENOSR\nerr ENOSR\nerr ENOSR\nran 0\nerr ENOSR\nerr ENOSR\n",
        Some(4),
    ),
    (
        2,
        7,
        b"ok\nok\nok\nerr ENOSR\nerr ENOSR\nerr ENOSR\nran 0\nok\nok\n",
        Some(4),
    ),
    (
        8,
        32,
        b"ok\nok\nok\nok\nok\nerr ENOSR\nran 0\nok\nok\n",
        Some(6),
    ),
    (
        33,
        33,
        b"ok\nok\nok\nok\nok\nok 3\nran 2\nok\nok\n",
        Some(7),
    ),
    (
        34,
        34,
        b"ok\nok\nok\nok\nok\nok 3\nran 4\nok\nok\n",
        Some(7),
    ),
    (35, 40, b"ok\nok\nok\nok\nok\nok 3\nran 4\nok\nok\n", None),
];

#[test]
fn a_pool_is_short_at_the_first_line_that_wants_more_blocks(rt: HostRuntime) -> Result<(), Fail> {
    let alloc = rt.alloc();
    for (least, most, answers, short) in &POOLS {
        let end = ScriptEnd {
            status: ScriptStatus::Whole,
            short: *short,
        };
        for blocks in *least..=*most {
            let script = format!(in alloc;
                "open {blocks}\nunlock\nslave\npush s ptem\npush s ldterm\nwrite m \"ls\\r\"\nrun 50\nclose s\nclose m\n"
            )?;
            plays(&rt, alloc, "a pool", script.as_bytes(), *answers, end);
        }
    }
    Ok(())
}
