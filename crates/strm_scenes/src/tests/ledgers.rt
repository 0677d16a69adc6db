//! The ledger of a direction, as a script asks for it.

/// How many bytes were written and made, and where they are.
pub const LEDGERS: &str = r#"page: Scripts and ledgers

title: Before open there is no ledger
setup: nothing
ledger ms
  err ENXIO
ledger sm
  err ENXIO

title: A pair as new has an empty ledger
setup: nothing
open
  ok
ledger ms
  ledger ms written 0 made 0 queued 0 inline 0
ledger sm
  ledger sm written 0 made 0 queued 0 inline 0

title: What was written stands on queues, and has gone when it was read
setup: pair
write m "abc"
  ok 3
ledger ms
  ledger ms written 3 made 0 queued 3 inline 0
ledger sm
  ledger sm written 0 made 0 queued 0 inline 0
run 10
  ran 1
read s 2
  data 2 "ab"
ledger ms
  ledger ms written 3 made 0 queued 1 inline 0 read 2

title: What is typed stands on queues, then in the line, and then at the head
setup: terminal
write m "ab"
  ok 2
ledger ms
  ledger ms written 2 made 0 queued 2 inline 0
run 50
  ran 4
ledger ms
  ledger ms written 2 made 0 queued 0 inline 2
ledger sm
  ledger sm written 0 made 2 queued 2 inline 0
write m "\n"
  ok 1
run 50
  ran 4
ledger ms
  ledger ms written 3 made 0 queued 3 inline 0
ledger sm
  ledger sm written 0 made 4 queued 4 inline 0

title: An ERASE key and what it takes
setup: terminal
write m "lx\x7fs\n"
  ok 5
run 50
  ran 4
read s 100
  data 3 "ls\n"
read m 100
  data 8 "lx\x08 \x08s\r\n"
ledger ms
  ledger ms written 5 made 0 queued 0 inline 0 read 3 erase-key 1 erased 1

title: What a message-discard read leaves
setup: terminal
mode s msgd
  ok
write m "hello\n"
  ok 6
run 50
  ran 4
read s 2
  data 2 "he"
read s 100
  err EAGAIN
ledger ms
  ledger ms written 6 made 0 queued 0 inline 0 read 2 rest-discarded 4

title: A signal key, and what it flushes in both directions
setup: terminal
write m "abc\x03"
  ok 4
run 50
  ran 4
signals s
  signals INT
read m 10
  data 2 "^C"
ledger ms
  ledger ms written 4 made 0 queued 0 inline 0 signal-key 1 flushed 3
ledger sm
  ledger sm written 0 made 5 queued 0 inline 0 read 2 flushed 3

title: A byte typed into a full line
setup: terminal
write m "xxxxxxxxxxxxxxxxxxxxxxxxxxxxxxxxxxxxxxxxxxxxxxxxxxxxxxxxxxxxxxxxxxxxxxxxxxxxxxxxxxxxxxxxxxxxxxxxxxxxxxxxxxxxxxxxxxxxxxxxxxxxxxxxxxxxxxxxxxxxxxxxxxxxxxxxxxxxxxxxxxxxxxxxxxxxxxxxxxxxxxxxxxxxxxxxxxxxxxxxxxxxxxxxxxxxxxxxxxxxxxxxxxxxxxxxxxxxxxxxxxxxxxxxxxxxxxxy"
  ok 256
run 50
  ran 4
write m "\n"
  ok 1
run 50
  ran 4
read s 300
  data 256 "xxxxxxxxxxxxxxxxxxxxxxxxxxxxxxxxxxxxxxxxxxxxxxxxxxxxxxxxxxxxxxxxxxxxxxxxxxxxxxxxxxxxxxxxxxxxxxxxxxxxxxxxxxxxxxxxxxxxxxxxxxxxxxxxxxxxxxxxxxxxxxxxxxxxxxxxxxxxxxxxxxxxxxxxxxxxxxxxxxxxxxxxxxxxxxxxxxxxxxxxxxxxxxxxxxxxxxxxxxxxxxxxxxxxxxxxxxxxxxxxxxxxxxxxxxxxxxx\n"
read m 300
  data 258 "xxxxxxxxxxxxxxxxxxxxxxxxxxxxxxxxxxxxxxxxxxxxxxxxxxxxxxxxxxxxxxxxxxxxxxxxxxxxxxxxxxxxxxxxxxxxxxxxxxxxxxxxxxxxxxxxxxxxxxxxxxxxxxxxxxxxxxxxxxxxxxxxxxxxxxxxxxxxxxxxxxxxxxxxxxxxxxxxxxxxxxxxxxxxxxxxxxxxxxxxxxxxxxxxxxxxxxxxxxxxxxxxxxxxxxxxxxxxxxxxxxxxxxxxxxxxxxx\x07\r\n"
ledger ms
  ledger ms written 257 made 0 queued 0 inline 0 read 256 line-full 1

title: What goes with a module that is popped
setup: terminal
write m "ab"
  ok 2
run 50
  ran 4
pop s
  ok
ledger ms
  ledger ms written 2 made 0 queued 0 inline 0 module-popped 2
read s 10
  err EAGAIN

title: A TAB for which spaces are made
setup: terminal
ioctl s TCSETS "\x00\x00%\x00\x00\x00\x18\x01\x00\x00\x00\x00\x00\x00\x8a;\x03\x1c\x7f\x15\x04\x00\x00\x00\x11\x13\x1a\x00\x12\x00\x17\x16\x00\x00\x00"
  ok
write s "a\tb"
  ok 3
run 50
  ran 3
read m 100
  data 9 "a       b"
ledger sm
  ledger sm written 3 made 7 queued 0 inline 0 read 9 replaced 1

title: Before open there is no journal to cut
setup: nothing
cut
  err ENXIO

title: A cut tells how many entries the journal held, and begins it anew
setup: pair
cut
  ok 3
cut
  ok 0
write m "abc"
  ok 3
write m ""
  ok 0
read s 9
  err EAGAIN
run 9
  ran 2
cut
  ok 4

title: A cut leaves queues, lines, signals and ledgers as they are
setup: terminal
write m "ab\r\x03cd"
  ok 6
run 50
  ran 4
write m "xyz"
  ok 3
read m 2
  data 2 "^C"
cut
  ok 12
show m
  show m head.r 1 2 drv.w 1 3
show s
  show s head.r 0 0 ldterm.r 0 0 ldterm.w 0 0 drv.w 0 0
ledger ms
  ledger ms written 9 made 0 queued 3 inline 2 signal-key 1 flushed 3
ledger sm
  ledger sm written 0 made 7 queued 2 inline 0 read 2 flushed 3
read m 99
  data 2 "cd"
run 50
  ran 4
write m "\r"
  ok 1
run 50
  ran 4
read s 99
  data 6 "cdxyz\n"
signals s
  signals INT
"#;
