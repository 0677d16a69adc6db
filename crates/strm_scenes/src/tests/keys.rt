//! Lines and keys of a terminal, as ldterm makes them of what is typed (ldterm(7M), termio(7I)).

/// How lines are made of what is typed, and read.
pub const LINES: &str = r#"page: ldterm(7M), termio(7I): input

title: NL ends a line, and each line is read as one message
setup: ldterm
write m "hello\nyo\n"
  ok 9
run 50
  ran 4
read s 2
  data 2 "he"
read s 100
  data 4 "llo\n"
read s 100
  data 3 "yo\n"
read s 100
  err EAGAIN

title: CR is taken as NL
setup: ldterm
write m "ls\r"
  ok 3
run 50
  ran 4
read s 100
  data 3 "ls\n"

title: Letters and bytes above 0x7f come as they were typed
setup: ldterm
write m "aA\xc1\xff\n"
  ok 5
run 50
  ran 4
read s 100
  data 5 "aA\xc1\xff\n"

title: An unfinished line isn't read, and stands on no queue
setup: ldterm
write m "ab"
  ok 2
run 50
  ran 4
read s 9
  err EAGAIN
show s
  show s head.r 0 0 ldterm.r 0 0 ldterm.w 0 0 drv.w 0 0
write m "c\n"
  ok 2
run 50
  ran 4
read s 9
  data 4 "abc\n"

title: EOF sends the line up without itself
setup: ldterm
write m "ab\x04"
  ok 3
run 50
  ran 4
read s 9
  data 2 "ab"
read s 9
  err EAGAIN

title: EOF on an empty line is the end of input for one read
setup: ldterm
write m "\x04"
  ok 1
run 50
  ran 2
read s 9
  data 0 ""
read s 9
  err EAGAIN

title: EOL and EOL2 are off at first: a byte of value 0 ends no line
setup: ldterm
write m "\x00a\n"
  ok 3
run 50
  ran 4
read s 9
  data 3 "\x00a\n"

title: A message without bytes is let go
setup: ldterm
write m ""
  ok 0
run 50
  ran 2
read s 9
  err EAGAIN

title: A message with a control part goes up unchanged, behind its turn
setup: ldterm
put m 0 "c" "d"
  ok
turn m.drv.w
  ok 2
show s
  show s head.r 0 0 ldterm.r 1 2 ldterm.w 0 0 drv.w 0 0
turn s.ldterm.r
  ok 2
get s
  msg 0 "c" "d" -

title: A message of high priority passes at once
setup: ldterm
put m hi "c" -
  ok
turn m.drv.w
  ok 1
show s
  show s head.r 1 1 ldterm.r 0 0 ldterm.w 0 0 drv.w 0 0
get s
  msg hi "c" - -
"#;

/// Keys that edit the line.
pub const EDITING: &str = r#"page: ldterm(7M), termio(7I): input

title: ERASE takes the last byte of the line
setup: ldterm
write m "lx\x7fs\n"
  ok 5
run 50
  ran 4
read s 100
  data 3 "ls\n"

title: ERASE stops at the line's begin
setup: ldterm
write m "\x7fa\n"
  ok 3
run 50
  ran 4
read s 100
  data 2 "a\n"

title: ERASE stops at a delimiter
setup: ldterm
write m "a\n\x7fb\n"
  ok 5
run 50
  ran 4
read s 9
  data 2 "a\n"
read s 9
  data 2 "b\n"

title: WERASE takes the blanks at the end and the word before them
setup: ldterm
write m "ab cd \x17\n"
  ok 8
run 50
  ran 4
read s 100
  data 4 "ab \n"

title: A TAB is a blank, and WERASE leaves the blanks before the word
setup: ldterm
write m "ab\tcd\t \x17e\n"
  ok 10
run 50
  ran 4
read s 100
  data 5 "ab\te\n"

title: KILL takes the line
setup: ldterm
write m "abc\x15d\n"
  ok 6
run 50
  ran 4
read s 100
  data 2 "d\n"

title: REPRINT is no byte of the line
setup: ldterm
write m "ab\x12c\n"
  ok 5
run 50
  ran 4
read s 100
  data 4 "abc\n"

title: LNEXT takes its meaning from the next byte
setup: ldterm
write m "\x16\x03a\x16\x16\x16\x7f\n"
  ok 8
run 50
  ran 4
read s 100
  data 5 "\x03a\x16\x7f\n"
signals s
  signals -

title: NL and CR behind LNEXT are bytes of the line, and CR isn't mapped
setup: ldterm
write m "a\x16\nb\x16\rc\n"
  ok 8
run 50
  ran 4
read s 100
  data 6 "a\nb\rc\n"

title: LNEXT waits for its byte beyond the turn's end
setup: ldterm
write m "\x16"
  ok 1
run 50
  ran 2
write m "\x03\n"
  ok 2
run 50
  ran 4
read s 100
  data 2 "\x03\n"
signals s
  signals -

title: A full line takes no more bytes but a delimiter
setup: ldterm
write m "xxxxxxxxxxxxxxxxxxxxxxxxxxxxxxxxxxxxxxxxxxxxxxxxxxxxxxxxxxxxxxxxxxxxxxxxxxxxxxxxxxxxxxxxxxxxxxxxxxxxxxxxxxxxxxxxxxxxxxxxxxxxxxxxxxxxxxxxxxxxxxxxxxxxxxxxxxxxxxxxxxxxxxxxxxxxxxxxxxxxxxxxxxxxxxxxxxxxxxxxxxxxxxxxxxxxxxxxxxxxxxxxxxxxxxxxxxxxxxxxxxxxxxxxxxxxxxxy"
  ok 256
run 50
  ran 4
write m "\n"
  ok 1
run 50
  ran 4
read s 300
  data 256 "xxxxxxxxxxxxxxxxxxxxxxxxxxxxxxxxxxxxxxxxxxxxxxxxxxxxxxxxxxxxxxxxxxxxxxxxxxxxxxxxxxxxxxxxxxxxxxxxxxxxxxxxxxxxxxxxxxxxxxxxxxxxxxxxxxxxxxxxxxxxxxxxxxxxxxxxxxxxxxxxxxxxxxxxxxxxxxxxxxxxxxxxxxxxxxxxxxxxxxxxxxxxxxxxxxxxxxxxxxxxxxxxxxxxxxxxxxxxxxxxxxxxxxxxxxxxxxx\n"
"#;

/// Keys that send signals.
pub const SIGNALS: &str = r#"page: ldterm(7M), termio(7I): input

title: INTR flushes the line and sends INT
setup: ldterm
write m "abc\x03"
  ok 4
run 50
  ran 4
signals s
  signals INT
write m "d\n"
  ok 2
run 50
  ran 4
read s 100
  data 2 "d\n"

title: QUIT flushes the line and sends QUIT
setup: ldterm
write m "abc\x1c"
  ok 4
run 50
  ran 4
signals s
  signals QUIT
write m "d\n"
  ok 2
run 50
  ran 4
read s 100
  data 2 "d\n"

title: SUSP flushes the line and sends TSTP
setup: ldterm
write m "abc\x1a"
  ok 4
run 50
  ran 4
signals s
  signals TSTP
write m "d\n"
  ok 2
run 50
  ran 4
read s 100
  data 2 "d\n"

title: A signal key takes lines that wait to be read
setup: ldterm
write m "one\n"
  ok 4
run 50
  ran 4
write m "\x1a"
  ok 1
run 50
  ran 4
read s 100
  err EAGAIN
signals s
  signals TSTP

title: What is typed behind a signal key is kept, in the same write too
setup: ldterm
write m "ab\x03cd\n"
  ok 6
run 50
  ran 4
read s 100
  data 3 "cd\n"
signals s
  signals INT

title: Each signal waits once, in the order in which they came
setup: ldterm
write m "\x03\x1c\x03\x1a"
  ok 4
run 50
  ran 4
signals s
  signals INT QUIT TSTP
signals s
  signals -

title: INTR takes the echo that waits, and what waits at the master's head
setup: ldterm
write m "ab"
  ok 2
run 50
  ran 4
write m "c\x03"
  ok 2
run 50
  ran 4
read m 100
  data 2 "^C"

title: SUSP leaves both
setup: ldterm
write m "ab"
  ok 2
run 50
  ran 4
write m "c\x1a"
  ok 2
run 50
  ran 4
read m 100
  data 5 "abc^Z"
"#;

/// Keys of flow control.
pub const FLOW: &str = r#"page: ldterm(7M), termio(7I): input

title: STOP and START are no bytes of the line
setup: ldterm
write m "a\x13b\x11c\n"
  ok 6
run 50
  ran 6
read s 100
  data 4 "abc\n"

title: STOP sends a message down, and a second one sends none
setup: ldterm
write m "\x13"
  ok 1
run 50
  ran 3
write m "\x13"
  ok 1
run 50
  ran 2

title: START sends one down where output was stopped
setup: ldterm
write m "\x13"
  ok 1
run 50
  ran 3
write m "\x11"
  ok 1
run 50
  ran 3
write m "\x11"
  ok 1
run 50
  ran 2

title: A byte that isn't START starts nothing
setup: ldterm
write m "\x13"
  ok 1
run 50
  ran 3
write m "\x04"
  ok 1
run 50
  ran 2
write m "\x11"
  ok 1
run 50
  ran 3
"#;
