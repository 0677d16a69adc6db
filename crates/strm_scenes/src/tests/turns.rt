//! Turns of ldterm's queues, what takes from them, and turns that stop within their message.

/// The line, the queues and what takes from them.
pub const TAKEN_OFF: &str = r#"page: srv(9E), canputnext(9F): turns and flow control

title: Turns of ldterm's queues, one by one
setup: ldterm
write m "a"
  ok 1
turn s.ldterm.r
  err EINVAL
turn m.drv.w
  ok 1
show s
  show s head.r 0 0 ldterm.r 1 1 ldterm.w 0 0 drv.w 0 0
turn s.ldterm.r
  ok 1
show s
  show s head.r 0 0 ldterm.r 0 0 ldterm.w 1 1 drv.w 0 0
turn s.ldterm.w
  ok 1
show s
  show s head.r 0 0 ldterm.r 0 0 ldterm.w 0 0 drv.w 1 1
turn s.drv.w
  ok 1
turn s.ldterm.w
  err EINVAL
read m 9
  data 1 "a"

title: A flush of the read side takes the line
setup: ldterm
write m "ab"
  ok 2
run 50
  ran 4
flush s r
  ok
write m "c\n"
  ok 2
run 50
  ran 4
read s 100
  data 2 "c\n"

title: So does one of band 0, and one of another band doesn't
setup: ldterm
write m "ab"
  ok 2
run 50
  ran 4
flush s r 0
  ok
write m "cd"
  ok 2
run 50
  ran 4
flush s r 1
  ok
write m "e\n"
  ok 2
run 50
  ran 4
read s 100
  data 4 "cde\n"

title: A pop takes the line, and then bytes come as they are
setup: ldterm
write m "ab"
  ok 2
run 50
  ran 4
pop s
  ok
read s 9
  err EAGAIN
write m "c\r"
  ok 2
run 50
  ran 1
read s 9
  data 2 "c\r"

title: A stream has one ldterm
setup: ldterm
look s
  name ldterm
push s ldterm
  err EINVAL
push s foo
  err EINVAL
pop m
  err EINVAL
pop s
  ok
look s
  err EINVAL
pop s
  err EINVAL
push s ldterm
  ok

title: A module that isn't there, a second ldterm, and a pop of the other side
setup: nothing
open
  ok
slave
  err EAGAIN
unlock
  ok
slave
  ok
push s foo
  err EINVAL
push s ldterm
  ok
push s ldterm
  err EINVAL
pop m
  err EINVAL
"#;

/// Turns where few blocks are free.
pub const FEW_BLOCKS: &str = r#"page: srv(9E), canputnext(9F): turns and flow control

title: A turn stops within its message where too few blocks are left, and the next one goes on
setup: scarce
ends: short in line 6
write m "a\x01"
  ok 2
run 2
  ran 2
show s
  show s head.r 0 0 ldterm.r 1 1 ldterm.w 1 1 drv.w 0 0
flush s w
  ok
run 50
  ran 4
read m 9
  data 1 "^"
run 50
  ran 2
read m 9
  data 1 "A"
write m "\n"
  ok 1
run 50
  ran 2
read s 9
  data 3 "a\x01\n"

title: A turn stops, and with what it left the next one is refused
setup: scarce
ends: short in line 6
write m "a\x01"
  ok 2
run 50
  ran 2
run 50
  ran 0
turn s.ldterm.r
  err ENOSR

title: So does one by its name
setup: scarce
ends: short in line 7
write m "a\x01"
  ok 2
turn m.drv.w
  ok 2
turn s.ldterm.r
  ok 1
show s
  show s head.r 0 0 ldterm.r 1 1 ldterm.w 1 1 drv.w 0 0

title: With one block more the turn goes to the end of its message
setup: nothing
open 34
  ok
unlock
  ok
slave
  ok
push s ldterm
  ok
write m "a\x01"
  ok 2
run 50
  ran 4
read m 9
  data 3 "a^A"

title: A turn stops between two plain bytes too, and once the echo is flushed the next one goes on
setup: nothing
ends: short in line 7
open 33
  ok
unlock
  ok
slave
  ok
push s ptem
  ok
push s ldterm
  ok
write m "ab"
  ok 2
run 50
  ran 2
turn s.ldterm.w
  err ENOSR
flush s w
  ok
run 50
  ran 4
read m 10
  data 1 "b"

title: Where each of them begins with blocks enough, plain bytes are treated in one turn
setup: nothing
open 35
  ok
unlock
  ok
slave
  ok
push s ldterm
  ok
write m "ab"
  ok 2
turn m.drv.w
  ok 2
turn s.ldterm.r
  ok 2
show s
  show s head.r 0 0 ldterm.r 0 0 ldterm.w 1 2 drv.w 0 0
"#;
