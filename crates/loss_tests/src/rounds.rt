//! Rounds that end while calls are in flight. All rows are worked by hand.
use crate::parts::{assert_losses, assert_sessions};
use std::test::Fail;

const EVENTS: &str = "\
# Four lines of the log, five threads in turn. Five opens, 5 times Begin, 5 times Fill; four claims, and the fifth, which finds the
# lap full and gives its job up: 20 events. Four times Store and Persist: 28. Four times Finish, 29 to 32; Checkpoint, 33; six, 39.
row round_ends_for_a_lap
mkfs g 64 4 16 16 = 56 data blocks
file S setup; open a /a wc; open b /b wc; open c /c wc; open d /d wc; open e /e wc; thread; write a 61; thread; write b 62; thread; write c 63; thread; write d 64; thread; write e 65
step g S strict cut 20 choose newest = s.0 open a /a wc = fd 0; s.1 open b /b wc = fd 1; s.2 open c /c wc = fd 2; s.3 open d /d wc = fd 3; s.4 open e /e wc = fd 4; / dir; /a file 0; /b file 0; /c file 0; /d file 0; /e file 0
step g S strict cut 28 = s.0 open a /a wc = fd 0; s.1 open b /b wc = fd 1; s.2 open c /c wc = fd 2; s.3 open d /d wc = fd 3; s.4 open e /e wc = fd 4; / dir; /a file 1 61; /b file 1 62; /c file 1 63; /d file 1 64; /e file 0
step g S strict cut 29 = s.0 open a /a wc = fd 0; s.1 open b /b wc = fd 1; s.2 open c /c wc = fd 2; s.3 open d /d wc = fd 3; s.4 open e /e wc = fd 4; 0.0 write a 61 = count 1; / dir; /a file 1 61; /b file 1 62; /c file 1 63; /d file 1 64; /e file 0
step g S strict cut 37 = s.0 open a /a wc = fd 0; s.1 open b /b wc = fd 1; s.2 open c /c wc = fd 2; s.3 open d /d wc = fd 3; s.4 open e /e wc = fd 4; 0.0 write a 61 = count 1; 1.0 write b 62 = count 1; 2.0 write c 63 = count 1; 3.0 write d 64 = count 1; / dir; /a file 1 61; /b file 1 62; /c file 1 63; /d file 1 64; /e file 0
step g S strict cut 38 = s.0 open a /a wc = fd 0; s.1 open b /b wc = fd 1; s.2 open c /c wc = fd 2; s.3 open d /d wc = fd 3; s.4 open e /e wc = fd 4; 0.0 write a 61 = count 1; 1.0 write b 62 = count 1; 2.0 write c 63 = count 1; 3.0 write d 64 = count 1; / dir; /a file 1 61; /b file 1 62; /c file 1 63; /d file 1 64; /e file 1 65
step g S strict cut 39 = s.0 open a /a wc = fd 0; s.1 open b /b wc = fd 1; s.2 open c /c wc = fd 2; s.3 open d /d wc = fd 3; s.4 open e /e wc = fd 4; 0.0 write a 61 = count 1; 1.0 write b 62 = count 1; 2.0 write c 63 = count 1; 3.0 write d 64 = count 1; 4.0 write e 65 = count 1; / dir; /a file 1 61; /b file 1 62; /c file 1 63; /d file 1 64; /e file 1 65

# 56 data blocks, of which 4 are the reserve. /a has 24 blocks and one of its map; while they are overwritten 24 more are held: 3 are
# left, and the write to /b needs 5. Its Begin is no event, and it waits until the write to /a is done, 14, and all is gathered, 15.
row round_ends_for_room
mkfs g 64 4 16 16 = 56 data blocks
file S setup; open a /a wc; write a 61*98304; open b /b wc; thread; pwrite a 0 63*98304; thread; write b 62*16384
step g S strict cut 13 choose oldest = s.0 open a /a wc = fd 0; s.1 write a 61*98304 = count 98304; s.2 open b /b wc = fd 1; / dir; /a file 98304 63*98304; /b file 0
step g S strict cut 14 = s.0 open a /a wc = fd 0; s.1 write a 61*98304 = count 98304; s.2 open b /b wc = fd 1; 0.0 pwrite a 0 63*98304 = count 98304; / dir; /a file 98304 63*98304; /b file 0
step g S strict cut 19 = s.0 open a /a wc = fd 0; s.1 write a 61*98304 = count 98304; s.2 open b /b wc = fd 1; 0.0 pwrite a 0 63*98304 = count 98304; / dir; /a file 98304 63*98304; /b file 0
step g S strict cut 20 = s.0 open a /a wc = fd 0; s.1 write a 61*98304 = count 98304; s.2 open b /b wc = fd 1; 0.0 pwrite a 0 63*98304 = count 98304; / dir; /a file 98304 63*98304; /b file 16384 62*16384
step g S strict cut 21 = s.0 open a /a wc = fd 0; s.1 write a 61*98304 = count 98304; s.2 open b /b wc = fd 1; 0.0 pwrite a 0 63*98304 = count 98304; 1.0 write b 62*16384 = count 16384; / dir; /a file 98304 63*98304; /b file 16384 62*16384

# Four staging files of 64 blocks, of which eight writes of 32 blocks take all. Thread 0 has written seven, 44 events, and thread 1
# begins the eighth. The next Begin of thread 0 finds no staging block: it is no event, and waits until the eighth write is done,
# 50, and all is gathered, 51.
row round_ends_for_staging
mkfs h 2048 64 16 16 = 2040 data blocks
file S setup; open x /x wc; open y /y wc; thread; write x 61*131072; write x 61*131072; write x 61*131072; write x 61*131072; write x 61*131072; write x 61*131072; write x 61*131072; write x 61; thread; write y 62*131072
step h S strict order 0,0,0,0,0,0,0,0,0,0,0,0,0,0,0,0,0,0,0,0,0,0,0,0,0,0,0,0,0,0,0,0,0,0,0,0,0,0,0,0,0,0,1,0 cut 49 = s.0 open x /x wc = fd 0; s.1 open y /y wc = fd 1; 0.0 write x 61*131072 = count 131072; 0.1 write x 61*131072 = count 131072; 0.2 write x 61*131072 = count 131072; 0.3 write x 61*131072 = count 131072; 0.4 write x 61*131072 = count 131072; 0.5 write x 61*131072 = count 131072; 0.6 write x 61*131072 = count 131072; / dir; /x file 917504 61*917504; /y file 131072 62*131072
step h S strict order 0,0,0,0,0,0,0,0,0,0,0,0,0,0,0,0,0,0,0,0,0,0,0,0,0,0,0,0,0,0,0,0,0,0,0,0,0,0,0,0,0,0,1,0 cut 50 = s.0 open x /x wc = fd 0; s.1 open y /y wc = fd 1; 0.0 write x 61*131072 = count 131072; 0.1 write x 61*131072 = count 131072; 0.2 write x 61*131072 = count 131072; 0.3 write x 61*131072 = count 131072; 0.4 write x 61*131072 = count 131072; 0.5 write x 61*131072 = count 131072; 0.6 write x 61*131072 = count 131072; 1.0 write y 62*131072 = count 131072; / dir; /x file 917504 61*917504; /y file 131072 62*131072
step h S strict order 0,0,0,0,0,0,0,0,0,0,0,0,0,0,0,0,0,0,0,0,0,0,0,0,0,0,0,0,0,0,0,0,0,0,0,0,0,0,0,0,0,0,1,0 cut 55 = s.0 open x /x wc = fd 0; s.1 open y /y wc = fd 1; 0.0 write x 61*131072 = count 131072; 0.1 write x 61*131072 = count 131072; 0.2 write x 61*131072 = count 131072; 0.3 write x 61*131072 = count 131072; 0.4 write x 61*131072 = count 131072; 0.5 write x 61*131072 = count 131072; 0.6 write x 61*131072 = count 131072; 1.0 write y 62*131072 = count 131072; / dir; /x file 917504 61*917504; /y file 131072 62*131072
step h S strict order 0,0,0,0,0,0,0,0,0,0,0,0,0,0,0,0,0,0,0,0,0,0,0,0,0,0,0,0,0,0,0,0,0,0,0,0,0,0,0,0,0,0,1,0 cut 56 = s.0 open x /x wc = fd 0; s.1 open y /y wc = fd 1; 0.0 write x 61*131072 = count 131072; 0.1 write x 61*131072 = count 131072; 0.2 write x 61*131072 = count 131072; 0.3 write x 61*131072 = count 131072; 0.4 write x 61*131072 = count 131072; 0.5 write x 61*131072 = count 131072; 0.6 write x 61*131072 = count 131072; 1.0 write y 62*131072 = count 131072; / dir; /x file 917505 61*917505; /y file 131072 62*131072
step h S strict order 0,0,0,0,0,0,0,0,0,0,0,0,0,0,0,0,0,0,0,0,0,0,0,0,0,0,0,0,0,0,0,0,0,0,0,0,0,0,0,0,0,0,1,0 cut 57 = s.0 open x /x wc = fd 0; s.1 open y /y wc = fd 1; 0.0 write x 61*131072 = count 131072; 0.1 write x 61*131072 = count 131072; 0.2 write x 61*131072 = count 131072; 0.3 write x 61*131072 = count 131072; 0.4 write x 61*131072 = count 131072; 0.5 write x 61*131072 = count 131072; 0.6 write x 61*131072 = count 131072; 1.0 write y 62*131072 = count 131072; 0.7 write x 61 = count 1; / dir; /x file 917505 61*917505; /y file 131072 62*131072
";

const LOSSES: &str = "\
row losses_of_a_round_that_ends_for_a_lap
image 64 4 16 16
losses every 13 cuts 40
s: open a /a wc = fd 0
s: open b /b wc = fd 1
s: open c /c wc = fd 2
s: open d /d wc = fd 3
s: open e /e wc = fd 4
0: write a 61 = count 1
1: write b 62 = count 1
2: write c 63 = count 1
3: write d 64 = count 1
4: write e 65 = count 1
tree = / dir; /a file 1 61; /b file 1 62; /c file 1 63; /d file 1 64; /e file 1 65

row losses_of_a_round_that_ends_for_room
image 64 4 16 16
losses every 499 cuts 22
s: open a /a wc = fd 0
s: write a 61*98304 = count 98304
s: open b /b wc = fd 1
0: pwrite a 0 63*98304 = count 98304
1: write b 62*16384 = count 16384
tree = / dir; /a file 98304 63*98304; /b file 16384 62*16384
";

#[test]
fn rounds_end_with_calls_in_flight(rt: HostRuntime) -> Result<(), Fail> {
    assert_sessions(&rt, EVENTS, 3)
}

#[test]
fn losses_where_rounds_end(rt: HostRuntime) -> Result<(), Fail> {
    assert_losses(&rt, LOSSES, 2)
}
