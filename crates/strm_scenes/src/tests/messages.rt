//! Scenes of messages with parts: putmsg(2), getmsg(2), and the modes of a stream head that I_SRDOPT sets.

/// What is put on one side and got on the other.
pub const MESSAGES: &str = r#"page: getmsg(2), putmsg(2); streamio(7I): I_SRDOPT, I_GRDOPT

title: High priority comes first, then the bands, and each in the order of its puts
setup: pair
put m 0 - "a"
  ok
put m 1 - "b"
  ok
put m hi "c" -
  ok
put m 1 - "d"
  ok
run 10
  ran 4
get s
  msg hi "c" - -
get s
  msg 1 - "b" -
get s
  msg 1 - "d" -
get s
  msg 0 - "a" -
get s
  err EAGAIN

title: A get of less than a message tells what there is more of, and leaves it
setup: pair
put m 0 "abc" "wxyz"
  ok
run 10
  ran 1
get s any 2 3
  msg 0 "ab" "wxy" cd
get s
  msg 0 "c" "z" -

title: What a get leaves of a message has no block that it emptied, of either part
setup: nothing
open 34
  ok
unlock
  ok
slave
  ok
put m 1 "ab" "cde"
  ok
run 10
  ran 1
get s any 9 0
  msg 1 "ab" "" d
write m "x"
  ok 1
run 10
  ran 1
get s
  msg 1 - "cde" -
get s
  msg 0 - "x" -
put m 1 "ab" "cde"
  ok
run 10
  ran 1
get s any 1 9
  msg 1 "a" "cde" c
write m "y"
  ok 1
run 10
  ran 1
get s
  msg 1 "b" - -
read s 9
  data 1 "y"

title: A size of 0 gives a part as empty, and one that is absent stays so
setup: pair
put m 3 "a" -
  ok
put m 0 "" "b"
  ok
run 10
  ran 2
get s any 0 0
  msg 3 "" - c
get s any 1 0
  msg 3 "a" - -
get s any 9 0
  msg 0 "" "" d
get s
  msg 0 - "b" -

title: The first message has to be the one that is wanted
setup: pair
put s 1 - "b"
  ok
run 10
  ran 1
get m hi 9 9
  err EAGAIN
get m 2 9 9
  err EAGAIN
get m 1 9 9
  msg 1 - "b" -
put s hi "c" "d"
  ok
run 10
  ran 1
get m 7 9 9
  msg hi "c" "d" -

title: Bands go up to 255, and the highest comes first
setup: pair
put m 200 - "a"
  ok
put m 7 - "b"
  ok
put m 255 - "c"
  ok
put m 0 - "d"
  ok
put m 256 - "e"
  err EINVAL
run 10
  ran 4
get s 201 9 9
  msg 255 - "c" -
get s 201 9 9
  err EAGAIN
get s
  msg 200 - "a" -
get s
  msg 7 - "b" -
get s
  msg 0 - "d" -

title: Bands are got from the highest down, and 256 is none
setup: pair
put m 200 - "a"
  ok
put m 7 - "b"
  ok
put m 255 - "c"
  ok
put m 256 - "d"
  err EINVAL
run 10
  ran 3
get s
  msg 255 - "c" -
get s
  msg 200 - "a" -
get s
  msg 7 - "b" -

title: A band that is full leaves the others open
setup: pair
put m 200 - "zzzzzzzzzzzzzzzzzzzzzzzzzzzzzzzzzzzzzzzzzzzzzzzzzzzzzzzzzzzzzzzzzzzzzzzzzzzzzzzzzzzzzzzzzzzzzzzzzzzzzzzzzzzzzzzzzzzzzzzzzzzzzzzzzzzzzzzzzzzzzzzzzzzzzzzzzzzzzzzzzzzzzzzzzzzzzzzzzzzzzzzzzzzzzzzzzzzzzzzzzzzzzzzzzzzzzzzzzzzzzzzzzzzzzzzzzzzzzzzzzzzzzzzzzzzzzzzz"
  ok
put m 200 - "zzzzzzzzzzzzzzzzzzzzzzzzzzzzzzzzzzzzzzzzzzzzzzzzzzzzzzzzzzzzzzzzzzzzzzzzzzzzzzzzzzzzzzzzzzzzzzzzzzzzzzzzzzzzzzzzzzzzzzzzzzzzzzzzzzzzzzzzzzzzzzzzzzzzzzzzzzzzzzzzzzzzzzzzzzzzzzzzzzzzzzzzzzzzzzzzzzzzzzzzzzzzzzzzzzzzzzzzzzzzzzzzzzzzzzzzzzzzzzzzzzzzzzzzzzzzzzzz"
  ok
put m 200 - "a"
  err EAGAIN
put m 255 - "b"
  ok
put m 7 - "c"
  ok
write m "d"
  ok 1
run 1
  ran 1
put m 200 - "a"
  err EAGAIN
run 1
  ran 1
put m 200 - "a"
  ok
get s
  msg 255 - "b" -

title: What is written is got, and the data part of what is put is read
setup: pair
write m "\x00\"z"
  ok 3
put m 0 - "ab"
  ok
run 10
  ran 2
get s
  msg 0 - "\x00\"z" -
read s 9
  data 2 "ab"

title: At the end of input a get gives neither part, and a put goes nowhere
setup: pair
put m 0 - "a"
  ok
run 10
  ran 1
close m
  ok
get s
  msg 0 - "a" -
get s
  msg 0 - - -
get s hi 1 1
  msg 0 - - -
put s 0 - "a"
  err ENXIO

title: High priority wants a control part, bands are from 0 to 255, and parts have their limits
setup: nothing
open
  ok
put s 256 - "a"
  err EINVAL
put s 255 - "a"
  err ENXIO
get s 256 1 1
  err EINVAL
get s 255 1 1
  err ENXIO
put m hi - "a"
  err EINVAL
put m 255 - "a"
  ok
get m 255 1 1
  err EAGAIN
put m 0 "zzzzzzzzzzzzzzzzzzzzzzzzzzzzzzzzzzzzzzzzzzzzzzzzzzzzzzzzzzzzzzzz" -
  ok
put m 0 "zzzzzzzzzzzzzzzzzzzzzzzzzzzzzzzzzzzzzzzzzzzzzzzzzzzzzzzzzzzzzzzzz" -
  err ERANGE
put m 0 - -
  ok

title: What is refused is sent nowhere, and neither is what has no part
setup: pair
put m hi - "a"
  err EINVAL
put m 0 - -
  ok
get s
  err EAGAIN
read s 0
  data 0 ""

title: A put in a band waits for its turn, and one without parts sends nothing
setup: pair
put m hi - "a"
  err EINVAL
put m 8 - "a"
  ok
put m 0 - -
  ok
get s
  err EAGAIN
read s 0
  data 0 ""

title: A control part is no data, until a mode makes it such
setup: pair
put m 0 "c" "d"
  ok
run 10
  ran 1
read s 5
  err EBADMSG
mode s protdat
  ok
read s 5
  data 2 "cd"

title: A mode of reads and one of control parts are set apart from each other
setup: nothing
open
  ok
mode s norm
  err ENXIO
unlock
  ok
slave
  ok
put m 0 "c" "ab"
  ok
put m 0 "d" "ef"
  ok
put m 0 - "gh"
  ok
run 10
  ran 3
read s 9
  err EBADMSG
mode s msgn
  ok
mode s protdat
  ok
read s 2
  data 2 "ca"
read s 9
  data 1 "b"
mode s msgd
  ok
mode s protdis
  ok
read s 1
  data 1 "e"
mode s norm
  ok
mode s protnorm
  ok
read s 9
  data 2 "gh"

title: Nothing about messages is there before the opening
setup: nothing
put m 0 - "a"
  err ENXIO
put s 256 - -
  err ENXIO
get m
  err ENXIO
get s 256 1 1
  err ENXIO
mode m msgd
  err ENXIO
"#;
