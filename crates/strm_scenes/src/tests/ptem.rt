//! Scenes of the module ptem (ptem(7M)): what it answers and tells, alone and beside ldterm.

/// A terminal's settings and the size of its window, and what changes them.
pub const PTEM: &str = r#"page: ptem(7M), tty_ioctl(4)

title: ptem stands once, and answers what a slave asks of its terminal
setup: pair
push s ptem
  ok
push s ptem
  err EINVAL
look s
  name ptem
ioctl s TCGETS
  data 35 "\x00\x00%\x00\x00\x00\x00\x05\x00\x00\x00\x00\x00\x00\x8a;\x03\x1c\x7f\x15\x04\x00\x00\x00\x11\x13\x1a\x00\x12\x00\x17\x16\x00\x00\x00"
ioctl s TIOCGWINSZ
  data 8 "\x00\x00\x00\x00\x00\x00\x00\x00"
ioctl s TIOCSWINSZ 24 80 0 0
  ok
signals s
  signals WINCH
run 10
  ran 1
ioctl s TIOCGWINSZ
  data 8 "\x00\x18\x00P\x00\x00\x00\x00"
ioctl s TIOCSWINSZ 24 80 0 0
  ok
signals s
  signals -
run 10
  ran 1
show m
  show m head.r 0 0 drv.w 0 0
show s
  show s head.r 0 0 drv.w 0 0

title: A master sets the window of its slave, which hears of each change once
setup: pair
push s ptem
  ok
ioctl m TIOCSWINSZ 25 81 0 0
  pending 1
run 10
  ran 2
poll m 1
  ok
signals s
  signals WINCH
signals m
  signals -
ioctl s TIOCGWINSZ
  data 8 "\x00\x19\x00Q\x00\x00\x00\x00"
ioctl m TIOCSWINSZ 25 81 0 0
  pending 3
run 10
  ran 2
poll m 3
  ok
signals s
  signals -
ioctl s TIOCSWINSZ 25 82 0 0
  ok
signals s
  signals WINCH
run 10
  ran 1
signals m
  signals -

title: What ptem can't read is refused, and so is what it isn't asked for
setup: pair
push s ptem
  ok
ioctl s raw 6 "1234567"
  nak EINVAL
ioctl s raw 6 "123456789"
  nak EINVAL
ioctl s TCSETS "abc"
  nak EINVAL
ioctl s TCSETSF ""
  nak EINVAL
ioctl s TIOCSIGNAL 2
  nak EINVAL
ioctl m raw 6 "1234567"
  pending 6
run 10
  ran 2
poll m 6
  nak EINVAL
ioctl m raw 7 "\x20"
  pending 7
run 10
  ran 2
poll m 7
  nak EINVAL
ioctl m raw 7 ""
  pending 8
run 10
  ran 2
poll m 8
  nak EINVAL
ioctl m TCGETS
  pending 9
run 10
  ran 2
poll m 9
  nak EINVAL
ioctl m TIOCSIGNAL 2
  pending 10
run 10
  ran 2
poll m 10
  ok
signals s
  signals INT
ioctl s TIOCGWINSZ
  data 8 "\x00\x00\x00\x00\x00\x00\x00\x00"

title: ptem below ldterm answers what ldterm passes on, and both are popped
setup: terminal
look s
  name ldterm
write m "ab\n"
  ok 3
run 10
  ran 4
read s 10
  data 3 "ab\n"
read m 10
  data 4 "ab\r\n"
show s
  show s head.r 0 0 ldterm.r 0 0 ldterm.w 0 0 drv.w 0 0
ioctl s TCGETS
  data 35 "\x00\x00%\x00\x00\x00\x00\x05\x00\x00\x00\x00\x00\x00\x8a;\x03\x1c\x7f\x15\x04\x00\x00\x00\x11\x13\x1a\x00\x12\x00\x17\x16\x00\x00\x00"
ioctl s TIOCGWINSZ
  data 8 "\x00\x00\x00\x00\x00\x00\x00\x00"
pop s
  ok
look s
  name ptem
pop s
  ok
look s
  err EINVAL
pop s
  err EINVAL
ioctl s TCGETS
  nak EINVAL

title: ldterm below ptem makes lines, and each stands once
setup: ldterm
push s ptem
  ok
push s ldterm
  err EINVAL
look s
  name ptem
write m "ab"
  ok 2
run 10
  ran 4
show s
  show s head.r 0 0 ldterm.r 0 0 ldterm.w 0 0 drv.w 0 0
write m "c\n"
  ok 2
run 10
  ran 4
read s 10
  data 4 "abc\n"
show s
  show s head.r 0 0 ldterm.r 0 0 ldterm.w 0 0 drv.w 0 0
pop s
  ok
pop s
  ok
look s
  err EINVAL

title: A window that changes is told before the keys behind it, and a close takes both modules
setup: ldterm
push s ptem
  ok
ioctl m TIOCSWINSZ 24 80 0 0
  pending 1
write m "ab\x03"
  ok 3
run 10
  ran 6
poll m 1
  ok
signals s
  signals WINCH INT
write s "out\n"
  ok 4
run 10
  ran 2
read m 20
  data 7 "^Cout\r\n"
flush s rw
  ok
close s
  ok
slave
  ok
look s
  err EINVAL
"#;
