//! What goes out to a terminal through ldterm (termio(7I): "Output Modes"; ldterm(7M)).

/// What is written goes out under the first modes, which have OPOST and ONLCR.
pub const OUTPUT: &str = r#"page: ldterm(7M), termio(7I): output

title: NL goes out as CR and NL
setup: ldterm
write s "a\nb"
  ok 3
run 50
  ran 2
get m
  msg 0 - "a\r\nb" -

title: Data of a band goes out in its band
setup: ldterm
put s 2 - "a\n"
  ok
run 50
  ran 2
get m
  msg 2 - "a\r\n" -

title: A message with a control part goes down as it is
setup: ldterm
put s 0 "\n" "\n"
  ok
run 50
  ran 2
get m
  msg 0 "\n" "\n" -
"#;

/// Output that is stopped, and turns that stop.
pub const STOPPED: &str = r#"page: ldterm(7M), termio(7I): output

title: Behind STOP what is written waits, and so does the echo, until START
setup: ldterm
write m "\x13"
  ok 1
run 50
  ran 3
write s "ab\n"
  ok 3
run 50
  ran 1
write m "x"
  ok 1
run 50
  ran 2
show s
  show s head.r 0 0 ldterm.r 0 0 ldterm.w 2 4 drv.w 0 0
read m 9
  err EAGAIN
write m "\x11"
  ok 1
run 50
  ran 7
get m
  msg 0 - "ab\r\n" -
get m
  msg 0 - "x" -

title: A message with a control part isn't held
setup: ldterm
write m "\x13"
  ok 1
run 50
  ran 3
put s 0 "c" "d"
  ok
run 50
  ran 2
get m
  msg 0 "c" "d" -

title: A turn stops before a byte for which too few blocks are left, and the next one goes on
setup: scarce
ends: short in line 6
write s "ab\n"
  ok 3
turn s.ldterm.w
  ok 1
show s
  show s head.r 0 0 ldterm.r 0 0 ldterm.w 1 2 drv.w 1 1
turn s.ldterm.w
  err ENOSR
turn s.drv.w
  ok 1
read m 9
  data 1 "a"
run 9
  ran 2
read m 9
  data 1 "b"
run 9
  ran 2
read m 9
  data 2 "\r\n"
"#;
