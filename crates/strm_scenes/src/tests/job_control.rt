//! Scenes of job control (POSIX, General Terminal Interface: Process Groups, Terminal Access Control): `group` says who makes the calls.

/// A terminal that a shell shares with its jobs.
pub const JOB_CONTROL: &str = r#"page: termio(7I), tcsetpgrp(3C): job control

title: A shell in the foreground reads, and a job in the background that reads is stopped
setup: terminal
# The shell, in group 5, takes the terminal.
group s 5 -
  ok
ioctl s TIOCSPGRP 5
  ok
write m "ls\na\n"
  ok 5
run 50
  ran 4
read s 3
  data 3 "ls\n"
# A job in group 7: SIGTTIN stops it, by read(2) and by getmsg(2), and what waits stays.
group s 7 -
  ok
read s 10
  stop TTIN
get s
  stop TTIN
read s 0
  stop TTIN
group s 5 -
  ok
read s 10
  data 2 "a\n"

title: A job that is brought to the front reads, and its shell is in the background then
setup: terminal
group s 7 -
  ok
ioctl s TIOCSPGRP 5
  ok
write m "a\n"
  ok 2
run 50
  ran 4
read s 10
  stop TTIN
ioctl s TIOCSPGRP 7
  ok
read s 10
  data 2 "a\n"
group s 5 -
  ok
read s 10
  stop TTIN

title: A background job that ignores SIGTTIN gets EIO for its read, and may write
setup: terminal
group s 7 -
  ok
ioctl s TIOCSPGRP 5
  ok
ioctl s TIOCGPGRP
  data 4 "\x00\x00\x00\x05"
read s 10
  stop TTIN
group s 7 i
  ok
read s 10
  err EIO
write s "x"
  ok 1
group s 5 -
  ok
read s 10
  err EAGAIN

title: An orphaned background job gets EIO, as nobody would let it go on
setup: terminal
ioctl s TIOCSPGRP 5
  ok
group s 7 o
  ok
read s 10
  err EIO
get s
  err EIO
write s "x"
  ok 1
group s 7 io
  ok
read s 10
  err EIO

title: Under TOSTOP a background job that writes is stopped, gets EIO, or writes on
setup: terminal
ioctl s TCSETS "\x00\x00%\x00\x00\x00\x00\x05\x00\x00\x00\x00\x00\x00\x8b;\x03\x1c\x7f\x15\x04\x00\x00\x00\x11\x13\x1a\x00\x12\x00\x17\x16\x00\x00\x00"
  ok
ioctl s TIOCSPGRP 5
  ok
group s 7 -
  ok
write s "x"
  stop TTOU
put s 0 - "x"
  stop TTOU
write s ""
  stop TTOU
group s 7 o
  ok
write s "x"
  err EIO
group s 7 i
  ok
write s "x"
  ok 1
run 50
  ran 3
read m 10
  data 1 "x"

title: TOSTOP holds a write of the background, orphaned it fails, and who ignores SIGTTOU writes on
setup: terminal
ioctl s TCSETS "\x00\x00%\x00\x00\x00\x00\x05\x00\x00\x00\x00\x00\x00\x8b;\x03\x1c\x7f\x15\x04\x00\x00\x00\x11\x13\x1a\x00\x12\x00\x17\x16\x00\x00\x00"
  ok
ioctl s TIOCSPGRP 5
  ok
group s 7 -
  ok
write s "x"
  stop TTOU
group s 7 o
  ok
write s "x"
  err EIO
group s 7 i
  ok
write s "x"
  ok 1
run 50
  ran 3
read m 10
  data 1 "x"

title: Who has no process group, and a terminal without one, know no background
setup: terminal
group s 7 -
  ok
read s 10
  err EAGAIN
ioctl s TIOCSPGRP 5
  ok
group s 0 -
  ok
read s 10
  err EAGAIN
group s 7 -
  ok
ioctl s TIOCSPGRP 0
  ok
read s 10
  err EAGAIN

title: A hang-up ends the background: a read comes to the end of input
setup: terminal
ioctl s TIOCSPGRP 5
  ok
group s 7 -
  ok
read s 10
  stop TTIN
close m
  ok
read s 10
  data 0 ""
write s "x"
  err ENXIO

title: The slave's head answers for its group without modules, and a master's question goes down as any
setup: pair
ioctl s raw 9 "abc"
  nak EINVAL
ioctl s raw 9 "\x00\x00\x00\x07"
  ok
ioctl s raw 8 ""
  data 4 "\x00\x00\x00\x07"
ioctl m TIOCGPGRP
  pending 4
run 10
  ran 2
poll m 4
  nak EINVAL

title: The foreground group goes with the slave's close, and the callers stay as they are
setup: pair
ioctl s TIOCSPGRP 5
  ok
group s 7 -
  ok
close s
  ok
slave
  ok
ioctl s TIOCGPGRP
  data 4 "\x00\x00\x00\x00"
ioctl s TIOCSPGRP 4294967295
  ok
read s 1
  stop TTIN

title: A group is of one side, needs no pair, and is taken on the master without effect
setup: nothing
group m 7 -
  ok
group s 7 -
  ok
open
  ok
unlock
  ok
slave
  ok
ioctl s TIOCSPGRP 5
  ok
group m 5 -
  ok
read s 1
  stop TTIN
group m 7 o
  ok
read m 1
  err EAGAIN

title: A stopped call is told where nothing else refuses it, and before what waits is
setup: pair
mode s msgd
  ok
ioctl s TIOCSPGRP 5
  ok
group s 7 -
  ok
put m 0 "c" "d"
  ok
run 10
  ran 1
read s 10
  stop TTIN
get s 256 1 1
  err EINVAL
group s 0 -
  ok
read s 10
  err EBADMSG

title: Flags are spelled in one order
setup: nothing
ends: malformed
group s 7 oi
  err line 1
"#;
