//! Scenes of ioctls and signals: ioctl(2) with its answer, now or later, and what waits of signals.

/// What is asked of the drivers, and what they answer.
pub const IOCTLS: &str = r#"page: ioctl(2); streamio(7I): I_STR

title: A master's ioctl waits for its answer, which is given once, and a slave's is answered at once
setup: pair
ioctl m TIOCGWINSZ
  pending 1
ioctl m TIOCGWINSZ
  err EAGAIN
run 10
  ran 2
poll m 1
  nak EINVAL
ioctl s TIOCGWINSZ
  nak EINVAL
poll s 1
  err EINVAL

title: The ioctls of a pair are numbered in turn, and a poll wants the one under way
setup: pair
poll m 0
  err EINVAL
ioctl s TCGETS
  nak EINVAL
ioctl m TCGETS
  pending 2
poll m 1
  err EINVAL
poll m 2
  err EAGAIN
poll s 2
  err EINVAL
run 1
  ran 1
poll m 2
  err EAGAIN
run 1
  ran 1
poll m 4294967295
  err EINVAL
poll m 2
  nak EINVAL
poll m 2
  err EINVAL
ioctl m TCGETS
  pending 3

title: An ioctl under way waits for a slave that was closed
setup: nothing
open
  ok
ioctl m TCGETS
  nak EINVAL
unlock
  ok
slave
  ok
ioctl m TCGETS
  pending 2
close s
  ok
run 10
  ran 1
poll m 2
  err EAGAIN
slave
  ok
run 10
  ran 2
poll m 2
  nak EINVAL

title: The drivers know no ioctl, by its name or by its number
setup: pair
ioctl s TCGETS
  nak EINVAL
ioctl s TCSETS "ab"
  nak EINVAL
ioctl s TCSETSW ""
  nak EINVAL
ioctl s TCSETSF "\x00\"\n"
  nak EINVAL
ioctl s TIOCGWINSZ
  nak EINVAL
ioctl s TIOCSWINSZ 24 80 0 65535
  nak EINVAL
ioctl s TIOCSIGNAL 0
  nak EINVAL
ioctl s TIOCSIGNAL 255
  nak EINVAL
ioctl s raw 0 ""
  nak EINVAL
ioctl s raw 4294967295 "x"
  nak EINVAL

title: An ioctl sends 256 bytes at most
setup: pair
ioctl s raw 99 "xxxxxxxxxxxxxxxxxxxxxxxxxxxxxxxxxxxxxxxxxxxxxxxxxxxxxxxxxxxxxxxxxxxxxxxxxxxxxxxxxxxxxxxxxxxxxxxxxxxxxxxxxxxxxxxxxxxxxxxxxxxxxxxxxxxxxxxxxxxxxxxxxxxxxxxxxxxxxxxxxxxxxxxxxxxxxxxxxxxxxxxxxxxxxxxxxxxxxxxxxxxxxxxxxxxxxxxxxxxxxxxxxxxxxxxxxxxxxxxxxxxxxxxxxxxxxxxxx"
  err ERANGE
ioctl s raw 99 "xxxxxxxxxxxxxxxxxxxxxxxxxxxxxxxxxxxxxxxxxxxxxxxxxxxxxxxxxxxxxxxxxxxxxxxxxxxxxxxxxxxxxxxxxxxxxxxxxxxxxxxxxxxxxxxxxxxxxxxxxxxxxxxxxxxxxxxxxxxxxxxxxxxxxxxxxxxxxxxxxxxxxxxxxxxxxxxxxxxxxxxxxxxxxxxxxxxxxxxxxxxxxxxxxxxxxxxxxxxxxxxxxxxxxxxxxxxxxxxxxxxxxxxxxxxxxxxx"
  nak EINVAL

title: No signal waits where none came
setup: nothing
open
  ok
signals m
  signals -
signals s
  err ENXIO
unlock
  ok
slave
  ok
ioctl s TIOCSIGNAL 2
  nak EINVAL
signals s
  signals -
signals m
  signals -

title: An ioctl goes down no stream that was hung up, and what is asked of its head goes on
setup: pair
close m
  ok
ioctl s TCGETS
  err ENXIO
poll s 1
  err EINVAL
signals s
  signals -
ioctl m TCGETS
  err ENXIO
poll m 1
  err ENXIO
signals m
  err ENXIO

title: Nothing about ioctls is there before the opening
setup: nothing
ioctl m TCGETS
  err ENXIO
ioctl s raw 99 "x"
  err ENXIO
poll m 1
  err ENXIO
signals s
  err ENXIO
"#;

/// What becomes of an ioctl of a terminal, and of one under way where a module is popped.
pub const POPPED: &str = r#"page: ioctl(2); streamio(7I): I_STR

title: An ioctl ends as refused with the module on which its M_IOCTL waits, and the next one is answered
setup: terminal
write s "hi\n"
  ok 3
ioctl s TCSETSW "\x00\x00%\x00\x00\x00\x00\x05\x00\x00\x00\x00\x00\x00\x8a;\x03\x1c\x7f\x15\x04\x00\x00\x00\x11\x13\x1a\x00\x12\x00\x17\x16\x00\x00\x00"
  pending 1
poll s 1
  err EAGAIN
pop s
  ok
poll s 1
  nak EINVAL
poll s 1
  err EINVAL
ioctl s TIOCGWINSZ
  data 8 "\x00\x00\x00\x00\x00\x00\x00\x00"

title: A terminal refuses a command that it doesn't know, and settings of another length once the output before them has gone
setup: terminal
ioctl s raw 99 "x"
  nak EINVAL
ioctl s raw 3 "abc"
  pending 2
run 50
  ran 1
poll s 2
  nak EINVAL
poll s 2
  err EINVAL

title: An ioctl waits on behind a pop of the module above
setup: ldterm
write s "hi\n"
  ok 3
ioctl s TCSETSW "\x00\x00%\x00\x00\x00\x00\x05\x00\x00\x00\x00\x00\x00\x8a;\x03\x1c\x7f\x15\x04\x00\x00\x00\x11\x13\x1a\x00\x12\x00\x17\x16\x00\x00\x00"
  pending 1
push s ptem
  ok
pop s
  ok
poll s 1
  err EAGAIN
pop s
  ok
poll s 1
  nak EINVAL

title: An ioctl waits on where its M_IOCTL went down before its module was popped
setup: pair
push m ldterm
  ok
write m "hi\n"
  ok 3
ioctl m TCSETSW "\x00\x00%\x00\x00\x00\x00\x05\x00\x00\x00\x00\x00\x00\x8a;\x03\x1c\x7f\x15\x04\x00\x00\x00\x11\x13\x1a\x00\x12\x00\x17\x16\x00\x00\x00"
  pending 1
run 3
  ran 3
show m
  show m head.r 0 0 ldterm.r 0 0 ldterm.w 0 0 drv.w 1 51
pop m
  ok
poll m 1
  err EAGAIN
run 10
  ran 2
poll m 1
  nak EINVAL

title: An ioctl waits on where the M_IOCTL that goes with a module is that of number 0, with which ptem told of a change
setup: pair
push m ldterm
  ok
push m ptem
  ok
write m "hi\n"
  ok 3
ioctl m TCSETSW "\x00\x00%\x00\x00\x00\x00\x05\x00\x00\x00\x00\x00\x00\x8a;\x03\x1c\x7f\x15\x04\x00\x00\x00\x11\x13\x1a\x00\x12\x00\x17\x16\x00\x00\x00"
  ok
pop m
  ok
ioctl m TIOCGWINSZ
  pending 2
show m
  show m head.r 0 0 ldterm.r 0 0 ldterm.w 2 54 drv.w 1 16
pop m
  ok
poll m 2
  err EAGAIN
run 10
  ran 2
poll m 2
  nak EINVAL
"#;
