//! The terms of STREAMS, each explained by what is seen of it (STREAMS Programming Guide; putq(9F), canput(9F), srv(9E), put(9E)). Read them
//! in turn; the comments tell what to look at.

/// Words of STREAMS, for who meets them for the first time.
pub const TERMS: &str = r#"page: STREAMS Programming Guide: its terms

title: A message has a control part, a data part, or both
setup: pair
# putmsg(2) sends one message: here the control part "c" and the data part "d". The driver carries it across in its turn.
put m 0 "c" "d"
  ok
run 1
  ran 1
# read(2) takes data alone. A control part stands in its way: EBADMSG, and the message stays first.
read s 9
  err EBADMSG
# getmsg(2) takes both parts: priority or band, control, data, and "-": nothing of it is left.
get s
  msg 0 "c" "d" -
# write(2) sends data alone.
write m "e"
  ok 1
run 1
  ran 1
get s
  msg 0 - "e" -

title: Message priority: high priority goes ahead of all that waits
setup: pair
# Ordinary messages (M_DATA, M_PROTO) are queued by putq(9F) as they come.
put m 0 - "first"
  ok
put m 0 - "second"
  ok
# M_PCPROTO is of high priority: putq puts it in front of both.
put m hi "third" -
  ok
run 3
  ran 3
get s
  msg hi "third" - -
get s
  msg 0 - "first" -
get s
  msg 0 - "second" -

title: Band: a higher one goes ahead of a lower, and within one the first stays first
setup: pair
put m 0 - "a"
  ok
put m 2 - "b"
  ok
put m 1 - "c"
  ok
put m 2 - "d"
  ok
# High priority goes ahead of each band.
put m hi "e" -
  ok
# All five wait on the queue of the master's driver: messages and bytes.
show m
  show m head.r 0 0 drv.w 5 5
run 5
  ran 5
get s
  msg hi "e" - -
get s
  msg 2 - "b" -
get s
  msg 2 - "d" -
get s
  msg 1 - "c" -
get s
  msg 0 - "a" -

title: A put procedure acts at once, a service procedure when its queue has its turn
setup: ldterm
put m 0 - "a\n"
  ok
put m hi "c" -
  ok
# The driver's service procedure carries one message a turn, that of high priority first. ldterm's put procedure passes it on at once.
turn m.drv.w
  ok 1
show s
  show s head.r 1 1 ldterm.r 0 0 ldterm.w 0 0 drv.w 0 0
# Of data ldterm's put procedure does no more than putq(9F), which enables the queue for a turn.
turn m.drv.w
  ok 2
show s
  show s head.r 1 1 ldterm.r 1 2 ldterm.w 0 0 drv.w 0 0
# The turn runs the service procedure: the line goes up, and its echo waits to go down.
turn s.ldterm.r
  ok 2
show s
  show s head.r 2 3 ldterm.r 0 0 ldterm.w 1 2 drv.w 0 0
# A queue on which nothing waits isn't enabled, and gets no turn.
turn s.ldterm.r
  err EINVAL

title: Flow control holds a message at the high-water mark, and back-enabling lets it go at the low one
setup: ldterm
# Two messages of 256 bytes bring ldterm.r to its high-water mark of 512.
write m "1234567\n1234567\n1234567\n1234567\n1234567\n1234567\n1234567\n1234567\n1234567\n1234567\n1234567\n1234567\n1234567\n1234567\n1234567\n1234567\n1234567\n1234567\n1234567\n1234567\n1234567\n1234567\n1234567\n1234567\n1234567\n1234567\n1234567\n1234567\n1234567\n1234567\n1234567\n1234567\n"
  ok 256
write m "1234567\n1234567\n1234567\n1234567\n1234567\n1234567\n1234567\n1234567\n1234567\n1234567\n1234567\n1234567\n1234567\n1234567\n1234567\n1234567\n1234567\n1234567\n1234567\n1234567\n1234567\n1234567\n1234567\n1234567\n1234567\n1234567\n1234567\n1234567\n1234567\n1234567\n1234567\n1234567\n"
  ok 256
turn m.drv.w
  ok 256
turn m.drv.w
  ok 256
show s
  show s head.r 0 0 ldterm.r 2 512 ldterm.w 0 0 drv.w 0 0
# The queue is full: canputnext(9F) says so to the driver, which leaves the third message where it is and gets no further turn.
write m "x"
  ok 1
turn m.drv.w
  blocked
turn m.drv.w
  err EINVAL
# High priority isn't held. putq(9F) enables the queue for it; behind it "x" is held as before.
put m hi "c" -
  ok
turn m.drv.w
  ok 1
turn m.drv.w
  blocked
# The service procedure above takes a message. 256 bytes are left, less than the high-water mark: no one is enabled for that.
turn s.ldterm.r
  ok 256
turn m.drv.w
  err EINVAL
# It takes the other one, and the count comes down to the low-water mark of 128: the queue that was held is enabled again.
turn s.ldterm.r
  ok 256
turn m.drv.w
  ok 1

title: M_FLUSH goes down, and comes round at the bottom
setup: ldterm
# Something stands on each queue: a line at the slave's head, its echo at the master's, output on ldterm.w and drv.w.
write m "in\n"
  ok 3
run 50
  ran 4
write s "out"
  ok 3
turn s.ldterm.w
  ok 3
write s "more"
  ok 4
show s
  show s head.r 1 3 ldterm.r 0 0 ldterm.w 1 4 drv.w 1 3
show m
  show m head.r 1 4 drv.w 0 0
# I_FLUSH with FLUSHW sends M_FLUSH down. Each module and the driver flush their write queues. What was written is read on the other side,
# so the driver turns the message round: it goes up there as FLUSHR, and empties the master's head.
flush s w
  ok
show s
  show s head.r 1 3 ldterm.r 0 0 ldterm.w 0 0 drv.w 0 0
show m
  show m head.r 0 0 drv.w 0 0
# FLUSHR goes down as well, comes back up on its own stream, and only then the head flushes its read queue.
flush s r
  ok
show s
  show s head.r 0 0 ldterm.r 0 0 ldterm.w 0 0 drv.w 0 0

title: A packet tells a master what comes up, and of which kind
setup: packets
# pckt stands on the master. Each message that comes up goes on as an M_PROTO: its kind is the control part, its bytes are the data part.
write s "ab"
  ok 2
put s hi "c" "d"
  ok
run 2
  ran 2
# M_PCPROTO is 0x83, M_DATA 0. No packet is of high priority, but that one came first.
get m
  msg 0 "\x83" "cd" -
get m
  msg 0 "\x00" "ab" -
# An M_FLUSH that was turned round is told of too: 0x86, and FLUSHR is 1.
flush s w
  ok
get m
  msg 0 "\x86" "\x01" -
"#;
