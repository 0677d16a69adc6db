//! How a pair is opened, written and read, what turns do, and how a script is spelled.

/// How a pair is made and opened.
pub const OPENING: &str = r#"page: ptm(7D), pts(4): opening and unlocking

title: A pair is opened, unlocked, and its slave is opened
setup: nothing
open
  ok
unlock
  ok
slave
  ok

title: The slave waits for the unlocking
setup: nothing
open
  ok
slave
  err EAGAIN
unlock
  ok
slave
  ok

title: Unlocking twice does no harm
setup: nothing
open
  ok
unlock
  ok
unlock
  ok

title: There is one pair, and its slave is opened once
setup: nothing
open
  ok
open
  err EINVAL
open 0
  err EINVAL
unlock
  ok
slave
  ok
slave
  err EINVAL

title: Nothing is there before the opening
setup: nothing
unlock
  err ENXIO
slave
  err ENXIO
write m "a"
  err ENXIO
read s 1
  err ENXIO
turn m.drv.w
  err ENXIO
run 1
  err ENXIO

title: A pair has 1 to 4096 blocks of each kind
setup: nothing
open 0
  err EINVAL
open 4097
  err EINVAL
open 4294967295
  err EINVAL
open 0000004096
  ok

title: The slave's stream isn't open before the slave is
setup: nothing
open
  ok
write s "a"
  err ENXIO
read s 1
  err ENXIO
"#;

/// What goes from one side to the other.
pub const WRITING_AND_READING: &str = r#"page: read(2), write(2)

title: What is written to the master is read from the slave, after a turn
setup: pair
write m "abc"
  ok 3
read s 10
  err EAGAIN
run 10
  ran 1
read s 10
  data 3 "abc"

title: A write, a turn and a read
setup: pair
write m "abc"
  ok 3
run 10
  ran 1
read s 10
  data 3 "abc"

title: The other direction is the same
setup: pair
write s "ls"
  ok 2
run 10
  ran 1
read m 10
  data 2 "ls"

title: A read takes a part, and the rest stays
setup: pair
write m "hello"
  ok 5
run 10
  ran 1
read s 2
  data 2 "he"
read s 0
  data 0 ""
read s 100
  data 3 "llo"
read s 1
  err EAGAIN

title: An empty write sends a message of no bytes, which a read takes away
setup: pair
write m ""
  ok 0
run 10
  ran 1
read s 10
  data 0 ""
read s 10
  err EAGAIN

title: A write goes in chunks, until the driver's queue is full
setup: pair
write m "zzzzzzzzzzzzzzzzzzzzzzzzzzzzzzzzzzzzzzzzzzzzzzzzzzzzzzzzzzzzzzzzzzzzzzzzzzzzzzzzzzzzzzzzzzzzzzzzzzzzzzzzzzzzzzzzzzzzzzzzzzzzzzzzzzzzzzzzzzzzzzzzzzzzzzzzzzzzzzzzzzzzzzzzzzzzzzzzzzzzzzzzzzzzzzzzzzzzzzzzzzzzzzzzzzzzzzzzzzzzzzzzzzzzzzzzzzzzzzzzzzzzzzzzzzzzzzzzzzzzzzzzzzzzzzzzzzzzzzzzzzzzzzzzzzzzzzzzzzzzzzzzzzzzzzzzzzzzzzzzzzzzzzzzzzzzzzzzzzzzzzzzzzzzzzzzzzzzzzzzzzzzzzzzzzzzzzzzzzzzzzzzzzzzzzzzzzzzzzzzzzzzzzzzzzzzzzzzzzzzzzzzzzzzzzzzzzzzzzzzzzzzzzzzzzzzzzzzzzzzzzzzzzzzzzzzzzzzzzzzzzzzzzzzzzzzzzzzzzzzzzzzzzzzzzzzzzzzzzzzzzzzzzzzzzzzzzzzzzzzzzzzzzzzzzzzzzzzzzzzzzzzzzzzzzzzzzzzzzzzzzzzzzzzzzzzzzzzzzzz"
  ok 512
write m "z"
  err EAGAIN
turn m.drv.w
  ok 256
write m "z"
  ok 1

title: A write needs 32 blocks of each kind more than it makes
setup: nothing
ends: short in line 4
open 32
  ok
unlock
  ok
slave
  ok
write m "a"
  err ENOSR

title: With one block more it goes
setup: nothing
open 33
  ok
unlock
  ok
slave
  ok
write m "a"
  ok 1
"#;

/// What the service procedures do, and when.
pub const TURNS: &str = r#"page: srv(9E), canputnext(9F): turns and flow control

title: A turn of a queue that isn't enabled is refused
setup: nothing
open
  ok
turn m.drv.w
  err EINVAL
turn s.head.r
  err EINVAL
turn m.ldterm.w
  err EINVAL

title: Nothing runs where nothing is enabled, or where no turn is asked for
setup: nothing
open
  ok
unlock
  ok
run 10
  ran 0
write m "a"
  ok 1
run 0
  ran 0

title: A message waits until the slave is open
setup: nothing
open
  ok
unlock
  ok
write m "a"
  ok 1
turn m.drv.w
  blocked
run 10
  ran 0
slave
  ok
run 10
  ran 1
read s 10
  data 1 "a"

title: Each turn takes one message
setup: pair
write m "a"
  ok 1
write m "b"
  ok 1
run 1
  ran 1
read s 10
  data 1 "a"
run 10
  ran 1
read s 10
  data 1 "b"
"#;

/// How a script is spelled.
pub const LINES_AND_TEXTS: &str = r#"page: Scripts and ledgers

title: Comments and empty lines give no answer, and count as lines
setup: nothing
ends: malformed
open
  ok

# a remark

write m "a\q"
  err line 5

title: A malformed line ends the script, before `open` too
setup: nothing
ends: malformed
shut
  err line 1

title: Words are parted by one space
setup: nothing
ends: malformed
open  1
  err line 1

title: A line has nothing behind its command
setup: nothing
ends: malformed
open 
  err line 1

title: A number has 1 to 10 digits
setup: nothing
ends: malformed
open 00000000001
  err line 1

title: The largest number is 4294967295
setup: nothing
ends: malformed
open 4294967296
  err line 1

title: A text wants both its quotes
setup: nothing
ends: malformed
open
  ok
write m "a
  err line 2

title: A text is one text
setup: nothing
ends: malformed
open
  ok
write m "a"b"
  err line 2

title: Escapes are read, and printed
setup: pair
write m "\n\r\t\"\\\x41\x7f\xfF"
  ok 8
run 1
  ran 1
read s 100
  data 8 "\n\r\t\"\\A\x7f\xff"

title: An escape has two digits
setup: nothing
ends: malformed
open
  ok
write m "\x4"
  err line 2

title: Only the small x is an escape
setup: nothing
ends: malformed
open
  ok
write m "\X41"
  err line 2

title: A side is m or s
setup: nothing
ends: malformed
open
  ok
read t 1
  err line 2

title: A queue is named by side, place and way
setup: nothing
ends: malformed
open
  ok
turn m.drv
  err line 2
"#;
