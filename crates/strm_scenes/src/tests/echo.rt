//! What ldterm echoes of what is typed (termio(7I): ECHO, ECHOE, ECHOK, ECHOCTL, ECHOKE).

/// What is echoed of bytes.
pub const BYTES: &str = r#"page: ldterm(7M), termio(7I): echo

title: Bytes that are shown are echoed as they are
setup: ldterm
write m "aZ~\xff"
  ok 4
run 50
  ran 4
read m 100
  data 4 "aZ~\xff"

title: Control bytes are echoed as a letter behind ^
setup: ldterm
write m "\x01\x1b\x00\x16\x7f"
  ok 5
run 50
  ran 4
read m 100
  data 8 "^A^[^@^?"

title: TAB is echoed as it is
setup: ldterm
write m "a\tb"
  ok 3
run 50
  ran 4
read m 100
  data 3 "a\tb"

title: NL behind LNEXT is echoed as a control byte
setup: ldterm
write m "\x16\n"
  ok 2
run 50
  ran 4
read m 100
  data 2 "^J"

title: Signal keys are echoed
setup: ldterm
write m "\x1a"
  ok 1
run 50
  ran 4
read m 100
  data 2 "^Z"
write m "\x1c"
  ok 1
run 50
  ran 4
read m 100
  data 2 "^\\"
write m "\x03"
  ok 1
run 50
  ran 4
read m 100
  data 2 "^C"

title: EOF, LNEXT, STOP and START are not
setup: ldterm
write m "a\x04\x13\x11\x16"
  ok 5
run 50
  ran 6
read m 100
  data 1 "a"

title: The echo of a turn is one message
setup: ldterm
write m "ab"
  ok 2
write m "c"
  ok 1
run 50
  ran 8
get m
  msg 0 - "ab" -
get m
  msg 0 - "c" -
get m
  err EAGAIN
"#;

/// What is echoed of keys that edit.
pub const RUBBING_OUT: &str = r#"page: ldterm(7M), termio(7I): echo

title: ERASE rubs out one column
setup: ldterm
write m "ab\x7f"
  ok 3
run 50
  ran 4
read m 100
  data 5 "ab\x08 \x08"

title: It rubs out two of a control byte
setup: ldterm
write m "a\x01\x7f"
  ok 3
run 50
  ran 4
read m 100
  data 9 "a^A\x08 \x08\x08 \x08"

title: It rubs out as many of a TAB as it has from its column on
setup: ldterm
write m "ab\t\x7f"
  ok 4
run 50
  ran 4
read m 100
  data 21 "ab\t\x08 \x08\x08 \x08\x08 \x08\x08 \x08\x08 \x08\x08 \x08"

title: It rubs out nothing of an empty line
setup: ldterm
write m "\x7f"
  ok 1
run 50
  ran 2
read m 100
  err EAGAIN

title: WERASE rubs out the blanks and the word
setup: ldterm
write m "ab cd \x17"
  ok 7
run 50
  ran 4
read m 100
  data 15 "ab cd \x08 \x08\x08 \x08\x08 \x08"

title: KILL rubs out the line
setup: ldterm
write m "a\x01b\x15"
  ok 4
run 50
  ran 4
read m 100
  data 16 "a^Ab\x08 \x08\x08 \x08\x08 \x08\x08 \x08"

title: KILL of an empty line rubs out nothing
setup: ldterm
write m "\x15"
  ok 1
run 50
  ran 2
read m 100
  err EAGAIN
"#;

/// What is echoed where there is no room.
pub const FULL: &str = r#"page: ldterm(7M), termio(7I): echo

title: A byte for which a full line has no room rings the bell
setup: ldterm
write m "xxxxxxxxxxxxxxxxxxxxxxxxxxxxxxxxxxxxxxxxxxxxxxxxxxxxxxxxxxxxxxxxxxxxxxxxxxxxxxxxxxxxxxxxxxxxxxxxxxxxxxxxxxxxxxxxxxxxxxxxxxxxxxxxxxxxxxxxxxxxxxxxxxxxxxxxxxxxxxxxxxxxxxxxxxxxxxxxxxxxxxxxxxxxxxxxxxxxxxxxxxxxxxxxxxxxxxxxxxxxxxxxxxxxxxxxxxxxxxxxxxxxxxxxxxxxxxxy"
  ok 256
run 50
  ran 4
read m 300
  data 256 "xxxxxxxxxxxxxxxxxxxxxxxxxxxxxxxxxxxxxxxxxxxxxxxxxxxxxxxxxxxxxxxxxxxxxxxxxxxxxxxxxxxxxxxxxxxxxxxxxxxxxxxxxxxxxxxxxxxxxxxxxxxxxxxxxxxxxxxxxxxxxxxxxxxxxxxxxxxxxxxxxxxxxxxxxxxxxxxxxxxxxxxxxxxxxxxxxxxxxxxxxxxxxxxxxxxxxxxxxxxxxxxxxxxxxxxxxxxxxxxxxxxxxxxxxxxxxxx\x07"

title: Where 512 bytes wait, the echo of a key is dropped whole
setup: ldterm
write m "xxxxxxxxxxxxxxxxxxxxxxxxxxxxxxxxxxxxxxxxxxxxxxxxxxxxxxxxxxxxxxxxxxxxxxxxxxxxxxxxxxxxxxxxxxxxxxxxxxxxxxxxxxxxxxxxxxxxxxxxxxxxxxxxxxxxxxxxxxxxxxxxxxxxxxxxxxxxxxxxxxxxxxxxxxxxxxxxxxxxxxxxxxxxxxxxxxxxxxxxxxxxxxxxxxxxxxxxxxxxxxxxxxxxxxxxxxxxxxxxxxxxxxxxxxxxxxx\n"
  ok 256
turn m.drv.w
  ok 256
turn s.ldterm.r
  ok 256
write m "xxxxxxxxxxxxxxxxxxxxxxxxxxxxxxxxxxxxxxxxxxxxxxxxxxxxxxxxxxxxxxxxxxxxxxxxxxxxxxxxxxxxxxxxxxxxxxxxxxxxxxxxxxxxxxxxxxxxxxxxxxxxxxxxxxxxxxxxxxxxxxxxxxxxxxxxxxxxxxxxxxxxxxxxxxxxxxxxxxxxxxxxxxxxxxxxxxxxxxxxxxxxxxxxxxxxxxxxxxxxxxxxxxxxxxxxxxxxxxxxxxxxxxxxxxxxxxx\n"
  ok 256
turn m.drv.w
  ok 256
turn s.ldterm.r
  ok 256
write m "a"
  ok 1
turn m.drv.w
  ok 1
turn s.ldterm.r
  ok 1
show s
  show s head.r 2 512 ldterm.r 0 0 ldterm.w 2 512 drv.w 0 0

title: The echo of a key may pass 512 bytes, and that of the next one is dropped
setup: ldterm
write m "\t\t\t\t\t\t\t\t\t\t\t\t\t\t\t\t\t\t\t\t\x15\t\t\t\x15a"
  ok 26
turn m.drv.w
  ok 26
turn s.ldterm.r
  ok 26
show s
  show s head.r 0 0 ldterm.r 0 0 ldterm.w 1 575 drv.w 0 0
"#;

/// What is echoed with a newline in it, which goes out as CR and NL.
pub const NEWLINES: &str = r#"page: ldterm(7M), termio(7I): echo

title: What is typed, edited and ended is echoed as it shows
setup: ldterm
write m "lx\x7fs\n"
  ok 5
run 50
  ran 4
read s 100
  data 3 "ls\n"
read m 100
  data 8 "lx\x08 \x08s\r\n"

title: NL is echoed as CR and NL
setup: ldterm
write m "a\n"
  ok 2
run 50
  ran 4
read m 100
  data 3 "a\r\n"

title: Lines that are ended in one turn are echoed in one message
setup: ldterm
write m "a\n\x7fb\n"
  ok 5
run 50
  ran 4
get m
  msg 0 - "a\r\nb\r\n" -
get m
  err EAGAIN

title: CR is echoed as the NL that it is taken as
setup: ldterm
write m "a\r"
  ok 2
run 50
  ran 4
read m 100
  data 3 "a\r\n"

title: REPRINT is echoed, a newline, and the line once more
setup: ldterm
write m "a\tb\x01\x12"
  ok 5
run 50
  ran 4
read m 100
  data 14 "a\tb^A^R\r\na\tb^A"
"#;
