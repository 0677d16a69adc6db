//! How scenes are read and played. A table of scenes is a text. In it `page:` names the manual page of the scenes that follow, `title:`
//! begins a scene, `setup:` names what stands before its own script, and `ends:` says how the script ends, if not whole and never short.
//! Commands stand at the margin, and the answer to each stands under it, indented by two spaces. Lines are counted with those of the setup.

use super::{MALFORMED, WELL, plays};
use std::alloc::{AllocError, Global};
use std::process::Abort;
use std::test::Fail;
use strm_script::{ScriptEnd, ScriptStatus};

// What stands before a scene's own script, by name: commands, each of which is answered by `ok`.
const SETUPS: [(&str, &str); 6] = [
    ("nothing", ""),
    ("pair", "open\nunlock\nslave"),
    ("ldterm", "open\nunlock\nslave\npush s ldterm"),
    (
        "terminal",
        "open\nunlock\nslave\npush s ptem\npush s ldterm",
    ),
    ("packets", "open\nunlock\nslave\npush m pckt"),
    ("scarce", "open 33\nunlock\nslave\npush s ldterm"),
];

// A scene, as far as it was read: its commands with those of its setup, and all their answers.
#[derive(Drop)]
struct Scene<'a> {
    title: &'a str,
    commands: Vec<u8>,
    answers: Vec<u8>,
    end: ScriptEnd,
}

// A scene of this title, of which nothing else was read.
fn titled(alloc: Global, title: &str) -> Scene<'_> {
    Scene {
        title,
        commands: Vec::new(alloc),
        answers: Vec::new(alloc),
        end: WELL,
    }
}

// Puts a line and its LF behind a text.
fn add_line(text: &mut Vec<u8>, line: &str) -> Result<(), AllocError> {
    text.extend_from_slice(line.as_bytes())?;
    text.push(b'\n')?;
    Ok(())
}

// The commands of the setup of this name.
fn setup_named(name: &str) -> Option<&'static str> {
    for (known, commands) in &SETUPS {
        if *known == name {
            return Some(*commands);
        }
    }
    None
}

// The end that is spelled so: `malformed`, or `short in line N`.
fn end_named(name: &str) -> Option<ScriptEnd> {
    if name == "malformed" {
        return Some(MALFORMED);
    }
    let line = name.strip_prefix("short in line ")?.parse::<u64>().ok()?;
    Some(ScriptEnd {
        status: ScriptStatus::Whole,
        short: Some(line),
    })
}

impl Scene<'_> {
    // Takes the commands of a setup, and their answers.
    fn take_setup(&mut self, commands: &str) -> Result<(), AllocError> {
        for command in commands.lines() {
            add_line(&mut self.commands, command)?;
            add_line(&mut self.answers, "ok")?;
        }
        Ok(())
    }

    // Takes a line of a scene behind its title.
    fn take_line(&mut self, rt: &impl Abort, line: &str) -> Result<(), AllocError> {
        if let Some(name) = line.strip_prefix("setup: ") {
            self.take_setup(setup_named(name).expect(rt, "the name of a setup"))
        } else if let Some(name) = line.strip_prefix("ends: ") {
            self.end = end_named(name).expect(rt, "how a script ends");
            Ok(())
        } else if let Some(answer) = line.strip_prefix("  ") {
            add_line(&mut self.answers, answer)
        } else {
            add_line(&mut self.commands, line)
        }
    }

    // Runs the commands, and compares what they answer and how they end.
    fn plays(&self, rt: &impl Abort, alloc: Global) {
        let (commands, answers) = (self.commands.as_slice(), self.answers.as_slice());
        plays(rt, alloc, self.title, commands, answers, self.end);
    }
}

// Plays the scenes of a table in turn.
pub fn plays_scenes(rt: &impl Abort, alloc: Global, table: &str) -> Result<(), Fail> {
    let mut scene = titled(alloc, "");
    for line in table.lines() {
        if let Some(title) = line.strip_prefix("title: ") {
            scene.plays(rt, alloc);
            scene = titled(alloc, title);
        } else if line.strip_prefix("page: ").is_none() {
            scene.take_line(rt, line)?;
        }
    }
    scene.plays(rt, alloc);
    Ok(())
}
