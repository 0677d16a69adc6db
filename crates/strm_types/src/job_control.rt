//! Job control: what becomes of a call by a caller in the background (POSIX, General Terminal Interface: Terminal Access Control).

ghost use Rattle.std.specs.Prelude.{◌≡◌};
ghost use Rattle.strm_types.specs.JobControl as job_control;
ghost use Rattle.strm_types.specs.JobControl.{from_background, is_background, of_access};

use crate::events::Caller;
use crate::ioctls::{TIOCGPGRP, TIOCSPGRP};
use crate::names::Side;
use crate::needs::Access;
use crate::refusals::Refusal;
use crate::signals::StopSignal;

/// What becomes of a call.
#[derive(Clone, Copy)]
pub enum Verdict {
    /// It is refused, and nothing changes.
    Refused(Refusal),
    /// Its caller is stopped, and nothing but the journal changes.
    Stopped(StopSignal),
    /// It is carried out.
    Allowed,
}

// Whether a caller's process group isn't the foreground one of a terminal, where both have one.
#[inline(always)]
fn is_background(caller: Caller, foreground: u32) -> bool
    ensures { result ≡ is_background caller foreground }
{
    caller.group != 0 && foreground != 0 && caller.group != foreground
}

// What becomes of an access from the background.
fn from_background(access: Access, tostop: bool, caller: Caller) -> Verdict
    ensures { result ≡ from_background access tostop caller }
{
    match access {
        Access::Reads if caller.ignores || caller.orphaned => Verdict::Refused(Refusal::Eio),
        Access::Reads => Verdict::Stopped(StopSignal::Ttin),
        Access::Writes if !tostop || caller.ignores => Verdict::Allowed,
        Access::Writes if caller.orphaned => Verdict::Refused(Refusal::Eio),
        Access::Writes => Verdict::Stopped(StopSignal::Ttou),
    }
}

// What becomes of an access at a terminal.
#[inline(always)]
fn of_access(access: Access, tostop: bool, foreground: u32, caller: Caller) -> Verdict
    ensures { result ≡ of_access access tostop foreground caller }
{
    if is_background(caller, foreground) {
        from_background(access, tostop, caller)
    } else {
        Verdict::Allowed
    }
}

/// What job control makes of a call by what it does at a terminal whose TOSTOP and foreground process group (0 for none) these are: EIO
/// refuses a read from the background where SIGTTIN is ignored or blocked or the group is orphaned, else SIGTTIN stops it; a write under
/// TOSTOP goes on where SIGTTOU is ignored or blocked, else EIO refuses it where the group is orphaned, else SIGTTOU stops it.
#[inline(always)]
pub fn held(access: Option<Access>, tostop: bool, foreground: u32, caller: Caller) -> Verdict
    ensures { result ≡ job_control.held access tostop foreground caller }
{
    match access {
        Some(access) => of_access(access, tostop, foreground, caller),
        None => Verdict::Allowed,
    }
}

/// Whether a command on a side's stream is one that the slave's head answers itself: TIOCGPGRP or TIOCSPGRP.
#[inline(always)]
pub fn asks_group(side: Side, command: u32) -> bool
    ensures { result ≡ job_control.asks_group side command }
{
    match side {
        Side::Master => false,
        Side::Slave => command == TIOCGPGRP || command == TIOCSPGRP,
    }
}

/// Whether a command sets the foreground group: TIOCSPGRP with four bytes.
pub fn sets_group(command: u32, body: &[u8]) -> bool
    ensures { result ≡ job_control.sets_group command body.now }
{
    command == TIOCSPGRP && body.len() == 4
}
