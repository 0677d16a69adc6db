//! Sessions of a terminal: ptem and ldterm stand on the slave, the master types and reads what the screen shows, and the slave reads, writes
//! and sets the terminal (termio(7I), ldterm(7M), ptem(7M)).

/// What is typed, echoed and read, what is written and shown, and what is set.
pub const SESSIONS: &str = r#"page: termio(7I): a whole terminal

title: A line that ends with CR is read with NL, and echoed as CR and NL
setup: terminal
write m "ls\r"
  ok 3
run 50
  ran 4
read s 100
  data 3 "ls\n"
read m 100
  data 4 "ls\r\n"

title: EOF on an empty line is read as an end of input, once
setup: terminal
write m "\x04"
  ok 1
run 50
  ran 2
read s 100
  data 0 ""
read s 100
  err EAGAIN

title: A line is read in parts
setup: terminal
write m "hello\n"
  ok 6
run 50
  ran 4
read s 2
  data 2 "he"
read s 100
  data 4 "llo\n"

title: The master sets the size of the window, and the slave hears of a change alone
setup: pair
push s ptem
  ok
ioctl m TIOCSWINSZ 24 80 0 0
  pending 1
run 50
  ran 2
poll m 1
  ok
signals s
  signals WINCH
ioctl m TIOCSWINSZ 24 80 0 0
  pending 2
run 50
  ran 2
poll m 2
  ok
signals s
  signals -
ioctl s TIOCGWINSZ
  data 8 "\x00\x18\x00P\x00\x00\x00\x00"

title: STOP holds what is written, and START lets it go
setup: terminal
write m "\x13"
  ok 1
run 50
  ran 3
write s "hi"
  ok 2
run 50
  ran 1
read m 10
  err EAGAIN
write m "\x11"
  ok 1
run 50
  ran 5
read m 10
  data 2 "hi"

title: ERASE doesn't reach a line that has gone
setup: terminal
write m "a\n\x7fb\n"
  ok 5
run 50
  ran 4
read s 9
  data 2 "a\n"
read s 9
  data 2 "b\n"
read m 9
  data 6 "a\r\nb\r\n"

title: The first termios
setup: terminal
ioctl s TCGETS
  data 35 "\x00\x00%\x00\x00\x00\x00\x05\x00\x00\x00\x00\x00\x00\x8a;\x03\x1c\x7f\x15\x04\x00\x00\x00\x11\x13\x1a\x00\x12\x00\x17\x16\x00\x00\x00"

title: TCSETS sets XTABS, so that a TAB goes out as spaces
setup: terminal
ioctl s TCSETS "\x00\x00%\x00\x00\x00\x18\x01\x00\x00\x00\x00\x00\x00\x8a;\x03\x1c\x7f\x15\x04\x00\x00\x00\x11\x13\x1a\x00\x12\x00\x17\x16\x00\x00\x00"
  ok
write s "a\tb"
  ok 3
run 50
  ran 3
read m 100
  data 9 "a       b"

title: A termios of another length is refused
setup: terminal
ioctl s TCSETS "abc"
  nak EINVAL

title: TCSETSW waits behind what was written
setup: terminal
write s "hi\n"
  ok 3
ioctl s TCSETSW "\x00\x00%\x00\x00\x00\x00\x05\x00\x00\x00\x00\x00\x00\x8a;\x03\x1c\x7f\x15\x04\x00\x00\x00\x11\x13\x1a\x00\x12\x00\x17\x16\x00\x00\x00"
  pending 1
run 50
  ran 4
poll s 1
  ok
read m 9
  data 4 "hi\r\n"
"#;
