//! Calls on a stream beside those that bring and take bytes.

/// Closes, flushes, modules, and what stands on the queues.
pub const STREAMS: &str = r#"page: close(2)

title: A closed slave is at its end for the master, and may be opened again
setup: pair
write m "abc"
  ok 3
run 10
  ran 1
close s
  ok
read m 5
  data 0 ""
write m "d"
  ok 1
run 10
  ran 1
slave
  ok
run 10
  ran 1
read s 5
  data 1 "d"

title: A closed master is gone, and the slave reads what came before
setup: pair
write m "abc"
  ok 3
run 10
  ran 1
close m
  ok
read s 2
  data 2 "ab"
read s 10
  data 1 "c"
read s 10
  data 0 ""
write s "x"
  err ENXIO
close m
  err ENXIO
open
  err EINVAL

title: A side is closed once, and behind a master that was closed no slave is opened
setup: pair
close s
  ok
write s "x"
  err ENXIO
close s
  err ENXIO
close m
  ok
read m 1
  err ENXIO
open
  err EINVAL
slave
  err ENXIO

page: streamio(7I): I_FLUSH, I_FLUSHBAND

title: A flush takes what is on its way to the readers
setup: pair
write m "abc"
  ok 3
show m
  show m head.r 0 0 drv.w 1 3
flush m w
  ok
show m
  show m head.r 0 0 drv.w 0 0
run 10
  ran 1
read s 5
  err EAGAIN

title: A flush takes what waits for a closed slave, and not what comes later
setup: pair
close s
  ok
write m "a"
  ok 1
run 10
  ran 1
flush m w
  ok
slave
  ok
write m "b"
  ok 1
run 10
  ran 1
read s 5
  data 1 "b"

title: A flush of the read side leaves what is written
setup: pair
write m "ab"
  ok 2
write s "c"
  ok 1
run 10
  ran 2
write m "d"
  ok 1
flush m r
  ok
show m
  show m head.r 0 0 drv.w 1 1
show s
  show s head.r 1 2 drv.w 0 0
flush s rw
  ok
show m
  show m head.r 0 0 drv.w 0 0
show s
  show s head.r 0 0 drv.w 0 0

title: A flush of a band takes the bytes of no other
setup: pair
write m "ab"
  ok 2
flush m w 1
  ok
show m
  show m head.r 0 0 drv.w 1 2
flush m w 0
  ok
show m
  show m head.r 0 0 drv.w 0 0

title: A band is from 0 to 255, and one above is refused before all else
setup: nothing
open
  ok
flush s r 256
  err EINVAL
flush s r 255
  err ENXIO
flush m r 4294967295
  err EINVAL
flush m r 256
  err EINVAL
flush m r 255
  ok
flush m r 7
  ok

title: A flush of band 200 leaves bands 0 and 255, and one of band 0 leaves band 200
setup: pair
put m 200 - "a"
  ok
put m 255 - "b"
  ok
put m 0 - "c"
  ok
flush m w 200
  ok
show m
  show m head.r 0 0 drv.w 2 2
put m 200 - "d"
  ok
flush m w 0
  ok
run 10
  ran 2
get s
  msg 255 - "b" -
get s
  msg 200 - "d" -
get s
  err EAGAIN

page: streamio(7I): I_PUSH, I_POP, I_LOOK

title: No module is pushed whose name isn't known
setup: pair
look s
  err EINVAL
pop s
  err EINVAL
push s foo
  err EINVAL

title: Nothing on a stream is there before the opening
setup: nothing
close m
  err ENXIO
push m ldterm
  err ENXIO
push s foo
  err ENXIO
pop s
  err ENXIO
look m
  err ENXIO
flush m r
  err ENXIO
flush s rw 256
  err ENXIO
show m
  err ENXIO

page: streamio(7I): I_NREAD

title: What stands is told of a stream that isn't open, too, and in messages
setup: nothing
open
  ok
show s
  show s head.r 0 0 drv.w 0 0
write m "ab"
  ok 2
write m "c"
  ok 1
show m
  show m head.r 0 0 drv.w 2 3
unlock
  ok
slave
  ok
run 10
  ran 2
close m
  ok
show m
  show m head.r 0 0 drv.w 0 0
show s
  show s head.r 2 3 drv.w 0 0
"#;
