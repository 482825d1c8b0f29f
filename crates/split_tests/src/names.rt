//! Scripts of calls on names.
use crate::asserting::assert_losses;
use std::test::Fail;

const LINUX: &str = "\
# Answered by Linux 6.18: each row was run in a fresh directory of an ext4 file system by mkdir(2),
# open(2) and so on, as root, and descriptors are counted from the lowest that the row opened.
# The trees are those of the directory after each call.
lines made_and_gone
open h /m # = fd 0
tree = / dir; /m file 0
close h = ok
unlink /m = ok
tree = / dir

row opens_of_a_missing_name
for r ra w wt wa wat rw rwt rwa rwat: open h /m # = ENOENT
for rc rcx rac racx wc wct wcx wcxt wac wact wacx wacxt rwc rwct rwcx rwcxt rwac rwact rwacx rwacxt: do made_and_gone

lines opened_and_closed
open h /f # = fd 0
close h = ok

row opens_of_a_file
open o /f wc = fd 0
tree = / dir; /f file 0
close o = ok
for r rc ra rac w wt wc wct wa wat wac wact rw rwt rwc rwct rwa rwat rwac rwact: do opened_and_closed
for rcx racx wcx wcxt wacx wacxt rwcx rwcxt rwacx rwacxt: open h /f # = EEXIST

row opens_of_a_directory
mkdir /d = ok
tree = / dir; /d dir
for rc rac w wt wc wct wa wat wac wact rw rwt rwc rwct rwa rwat rwac rwact: open h /d # = EISDIR
for rcx racx wcx wcxt wacx wacxt rwcx rwcxt rwacx rwacxt: open h /d # = EEXIST

lines three_handles_without_a_name
open a /f rwc = fd 0
tree = / dir; /f file 0
dup a b = fd 1
dup b c = fd 2
unlink /f = ok
tree = / dir

lines opened_anew
open e /g rwc = fd 0
tree = / dir; /g file 0
close e = ok

row dup_and_close_abc
do three_handles_without_a_name
close a = ok
dup b d = fd 0
for d b c: close # = ok
do opened_anew

row dup_and_close_acb
do three_handles_without_a_name
close a = ok
dup b d = fd 0
for d c b: close # = ok
do opened_anew

row dup_and_close_bac
do three_handles_without_a_name
close b = ok
dup a d = fd 1
for d a c: close # = ok
do opened_anew

row dup_and_close_bca
do three_handles_without_a_name
close b = ok
dup a d = fd 1
for d c a: close # = ok
do opened_anew

row dup_and_close_cab
do three_handles_without_a_name
close c = ok
dup a d = fd 2
for d a b: close # = ok
do opened_anew

row dup_and_close_cba
do three_handles_without_a_name
close c = ok
dup a d = fd 2
for d b a: close # = ok
do opened_anew

lines eight_calls
mkdir /d = ok
tree = / dir; /d dir
open a /d/f rwc = fd 0
tree = / dir; /d dir; /d/f file 0
dup a b = fd 1
stat /d/f = file 0
close a = ok
close b = ok
unlink /d/f = ok
tree = / dir; /d dir
rmdir /d = ok
tree = / dir

row calls_by_the_thousand
for 1 to 512: do eight_calls
";

const WORKED: &str = "\
# Worked by hand, where this project chooses: its limits, its handles, and EISDIR for each open of a
# directory that is not refused before.
row sixty_directories
for 0 to 9: mkdir /d0# = ok
tree = / dir; /d00 dir; /d01 dir; /d02 dir; /d03 dir; /d04 dir; /d05 dir; /d06 dir; /d07 dir; /d08 dir; /d09 dir
for 10 to 39: mkdir /d# = ok
tree = / dir; /d00 dir; /d01 dir; /d02 dir; /d03 dir; /d04 dir; /d05 dir; /d06 dir; /d07 dir; /d08 dir; /d09 dir; /d10 dir; /d11 dir; /d12 dir; /d13 dir; /d14 dir; /d15 dir; /d16 dir; /d17 dir; /d18 dir; /d19 dir; /d20 dir; /d21 dir; /d22 dir; /d23 dir; /d24 dir; /d25 dir; /d26 dir; /d27 dir; /d28 dir; /d29 dir; /d30 dir; /d31 dir; /d32 dir; /d33 dir; /d34 dir; /d35 dir; /d36 dir; /d37 dir; /d38 dir; /d39 dir
for 40 to 58: mkdir /d# = ok
mkdir /d59 = ENOSPC nodes 1 0
rmdir /d00 = ok
open a /d01/f wc = fd 0
tree = / dir; /d01 dir; /d01/f file 0; /d02 dir; /d03 dir; /d04 dir; /d05 dir; /d06 dir; /d07 dir; /d08 dir; /d09 dir; /d10 dir; /d11 dir; /d12 dir; /d13 dir; /d14 dir; /d15 dir; /d16 dir; /d17 dir; /d18 dir; /d19 dir; /d20 dir; /d21 dir; /d22 dir; /d23 dir; /d24 dir; /d25 dir; /d26 dir; /d27 dir; /d28 dir; /d29 dir; /d30 dir; /d31 dir; /d32 dir; /d33 dir; /d34 dir; /d35 dir; /d36 dir; /d37 dir; /d38 dir; /d39 dir; /d40 dir; /d41 dir; /d42 dir; /d43 dir; /d44 dir; /d45 dir; /d46 dir; /d47 dir; /d48 dir; /d49 dir; /d50 dir; /d51 dir; /d52 dir; /d53 dir; /d54 dir; /d55 dir; /d56 dir; /d57 dir; /d58 dir
open b /d02/f wc = ENOSPC nodes 1 0

row descriptor_limits
open a /f rwc = fd 0
tree = / dir; /f file 0
close b = EBADF
dup b c = EBADF
for 1 to 63: open h# /f r = fd #
open last /f r = EMFILE
open last /g rwc = EMFILE
dup a last = EMFILE
open last /missing r = ENOENT
close h7 = ok
close h3 = ok
dup a last = fd 3
open more /f r = fd 7
open most /f r = EMFILE

row reading_a_directory
mkdir /d = ok
tree = / dir; /d dir
open h /d r = EISDIR
open h /d ra = EISDIR
open h / r = EISDIR
open h / rwcx = EEXIST

row a_handle_is_bound_anew
open a /f rwc = fd 0
tree = / dir; /f file 0
open a /g rwc = fd 1
tree = / dir; /f file 0; /g file 0
dup a a = fd 2
close a = ok
close a = EBADF
open b /f r = fd 2
";

#[test]
fn answered_by_linux(rt: HostRuntime) -> Result<(), Fail> {
    assert_losses(&rt, LINUX, 10)
}

#[test]
fn worked_by_hand(rt: HostRuntime) -> Result<(), Fail> {
    assert_losses(&rt, WORKED, 4)
}
