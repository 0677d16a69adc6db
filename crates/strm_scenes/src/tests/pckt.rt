//! Scenes of the module pckt (pckt(7M)): the packets that a reader above it gets. They tell what packet mode of other systems tells (TIOCPKT of
//! tty_ioctl(4): data, flushes, stop, start), and what that loses: the order of what is told and of data, and the bytes of ioctls.

/// What becomes packets, and what is told of each.
pub const PCKT: &str = r#"page: pckt(7M), tty_ioctl(4): TIOCPKT

title: A master's pckt makes packets of what its slave writes, which only a get reads
setup: packets
push m pckt
  err EINVAL
look m
  name pckt
write s "hi"
  ok 2
run 10
  ran 1
read m 10
  err EBADMSG
get m
  msg 0 "\x00" "hi" -
get m
  err EAGAIN

title: No plain read takes a packet, and a get gives its kind and its bytes
setup: packets
write s "hi"
  ok 2
run 10
  ran 1
read m 10
  err EBADMSG
get m
  msg 0 "\x00" "hi" -

title: A flush of the slave's output is told behind what went before it, and flushes nothing above pckt
setup: packets
write s "hi"
  ok 2
run 10
  ran 1
flush s w
  ok
get m
  msg 0 "\x00" "hi" -
get m
  msg 0 "\x86" "\x01" -
get m
  err EAGAIN

title: A flush of the master's own is told as well, once each
setup: packets
write s "old"
  ok 3
run 10
  ran 1
flush m r
  ok
flush m rw
  ok
get m
  msg 0 "\x00" "old" -
get m
  msg 0 "\x86" "\x01" -
get m
  msg 0 "\x86" "\x01" -
get m
  err EAGAIN
ledger sm
  ledger sm written 3 made 5 queued 0 inline 0 read 8

title: A terminal that is stopped and started is told of by packets without data
setup: terminal
push m pckt
  ok
write m "\x13"
  ok 1
run 50
  ran 3
get m
  msg 0 "\x87" - -
ledger sm
  ledger sm written 0 made 1 queued 0 inline 0 read 1
write s "hi"
  ok 2
run 50
  ran 1
get m
  err EAGAIN
write m "\x11"
  ok 1
run 50
  ran 5
get m
  msg 0 "\x88" - -
get m
  msg 0 "\x00" "hi" -
ledger sm
  ledger sm written 2 made 3 queued 0 inline 0 read 5

title: An ioctl of the slave is told with its bytes, between what was written before it and after it
setup: pair
push s ptem
  ok
push m pckt
  ok
write s "a"
  ok 1
ioctl s TIOCSWINSZ 24 80 0 0
  ok
write s "b"
  ok 1
run 50
  ran 3
get m
  msg 0 "\x00" "a" -
get m
  msg 0 "\x0e" "\x00\x00\x00\x06\x00\x00\x00\x00\x00\x00\x00\x00\x00\x00\x00\x00\x00\x18\x00P\x00\x00\x00\x00" -
get m
  msg 0 "\x00" "b" -
get m
  err EAGAIN
ledger sm
  ledger sm written 2 made 27 queued 0 inline 0 read 29

title: On the slave's stream ioctls become packets too, and each message keeps its band
setup: pair
push s pckt
  ok
ioctl m TIOCGWINSZ
  pending 1
run 50
  ran 1
poll m 1
  err EAGAIN
get s
  msg 0 "\x0e" "\x00\x00\x00\x05\x00\x00\x00\x01\x00\x00\x00\x00\x00\x00\x00\x00" -
put m 2 "c" "d"
  ok
put m hi "e" -
  ok
put m 0 - ""
  ok
run 50
  ran 3
get s
  msg 2 "\x01" "cd" -
get s
  msg 0 "\x83" "e" -
get s
  msg 0 "\x00" "" -
ledger ms
  ledger ms written 3 made 20 queued 0 inline 0 read 23

title: What comes up once pckt is popped is no packet any more
setup: packets
push m ptem
  ok
look m
  name ptem
pop m
  ok
write s "x"
  ok 1
run 10
  ran 1
pop m
  ok
write s "y"
  ok 1
run 10
  ran 1
get m
  msg 0 "\x00" "x" -
read m 9
  data 1 "y"
get m
  err EAGAIN
read m 9
  err EAGAIN
"#;
