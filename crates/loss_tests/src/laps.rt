//! Scripts that fill the log, the staging files and the device.
use crate::parts::{assert_losses, assert_part};
use std::test::Fail;

const FEW: &str = "\
# The log has four lines: the fifth write begins a new lap.
row new_lap_of_the_log
image 64 4 16 16
losses every 13
open a /f wc = fd 0
write a 61 = count 1
tree = / dir; /f file 1 61
write a 61 = count 1
tree = / dir; /f file 2 6161
write a 61 = count 1
tree = / dir; /f file 3 616161
write a 61 = count 1
tree = / dir; /f file 4 61616161
write a 61 = count 1
tree = / dir; /f file 5 6161616161
";

const ROOM: &str = "\
# Room is used by two files; a truncate, and an unlink with the last close, give it back.
row room_is_given_back
image 64 4 16 16
open f /f rwc = fd 0
write f 61*131072 = count 131072
write f 62*131072 = ENOSPC blocks 32 19
open g /g rwc = fd 1
write g 62*131072 = ENOSPC blocks 33 19
write g 62*4096 = count 4096
fsync g = ok
pwrite f 0 63*40000 = count 40000
pwrite f 0 63*81920 = ENOSPC blocks 20 17
truncate f 0 = ok
write g 62*131072 = count 131072
write g 62*4097 = count 4097
stat /g = file 139265
unlink /f = ok
write g 62*4096 = count 4096
close f = ok
write g 62*4096 = count 4096
tree = / dir; /g file 147457 62*147457
";

const STAGING: &str = "\
# 33 blocks are staged by each write; a staging file has 64, and there are four: the fifth write ends the round, and is made in the next.
row staging_is_used_up
losses every 997
open f /f rwc = fd 0
pwrite f 100 61*131072 = count 131072
pwrite f 100 62*131072 = count 131072
pwrite f 100 63*131072 = count 131072
pwrite f 100 64*131072 = count 131072
pwrite f 100 65*131072 = count 131072
pwrite f 100 66*131072 = count 131072
pread f 98 4 = data 00006666
pwrite f 0 66*131172 = EINVAL
close f = ok
tree = / dir; /f file 131172 00*100+66*131072
";

const LONGEST: &str = "\
# 16,777,216 bytes, and one byte more. The write takes the steps from 79 to 1,270.
row the_longest_file
image 4200 64 64 128
open f /f rwc = fd 0
truncate f 16777216 = ok
truncate f 16777217 = EFBIG
pwrite f 16777215 61 = count 1
pwrite f 16777215 0000 = EFBIG
pwrite f 16777216 61 = EFBIG
pwrite f 16777216 - = count 0
seek f set 16777216 = offset 16777216
write f 61 = EFBIG
read f 9 = data -
pread f 16777214 9 = data 0061
stat /f = file 16777216
close f = ok
tree = / dir; /f file 16777216 00*16777215+61
";

const FIFTY: &str = "\
# Fifty writes: where the four lines of the log are full, all is published and the next lap begins.
row fifty_writes_in_four_lines
image 64 4 16 16
open f /f rwc = fd 0
pwrite f 0 61*500 = count 500
pwrite f 997 62*501 = count 501
pwrite f 1994 63*502 = count 502
pwrite f 2991 64*503 = count 503
pwrite f 3988 65*504 = count 504
pwrite f 4985 66*505 = count 505
pwrite f 5982 67*506 = count 506
pwrite f 6979 68*507 = count 507
pwrite f 7976 69*508 = count 508
pwrite f 973 6a*509 = count 509
pwrite f 1970 6b*510 = count 510
pwrite f 2967 6c*511 = count 511
pwrite f 3964 6d*512 = count 512
pwrite f 4961 6e*513 = count 513
pwrite f 5958 6f*514 = count 514
pwrite f 6955 70*515 = count 515
pwrite f 7952 71*516 = count 516
pwrite f 949 72*517 = count 517
pwrite f 1946 73*518 = count 518
pwrite f 2943 74*519 = count 519
pwrite f 3940 61*520 = count 520
pwrite f 4937 62*521 = count 521
pwrite f 5934 63*522 = count 522
pwrite f 6931 64*523 = count 523
pwrite f 7928 65*524 = count 524
pwrite f 925 66*525 = count 525
pwrite f 1922 67*526 = count 526
pwrite f 2919 68*527 = count 527
pwrite f 3916 69*528 = count 528
pwrite f 4913 6a*529 = count 529
pwrite f 5910 6b*530 = count 530
pwrite f 6907 6c*531 = count 531
pwrite f 7904 6d*532 = count 532
pwrite f 901 6e*533 = count 533
pwrite f 1898 6f*534 = count 534
pwrite f 2895 70*535 = count 535
pwrite f 3892 71*536 = count 536
pwrite f 4889 72*537 = count 537
pwrite f 5886 73*538 = count 538
pwrite f 6883 74*539 = count 539
pwrite f 7880 61*540 = count 540
pwrite f 877 62*541 = count 541
pwrite f 1874 63*542 = count 542
pwrite f 2871 64*543 = count 543
pwrite f 3868 65*544 = count 544
pwrite f 4865 66*545 = count 545
pwrite f 5862 67*546 = count 546
pwrite f 6859 68*547 = count 547
pwrite f 7856 69*548 = count 548
pwrite f 853 6a*549 = count 549
stat /f = file 8484
pread f 0 9000 = data 61*500+00*353+6a*549+62*16+6e*16+66*16+72*16+6a*16+62*16+00*376+63*542+6f*16+67*16+73*16+6b*16+63*16+00*375+64*543+70*16+68*16+74*16+6c*16+64*16+00*374+65*544+71*16+69*16+61*16+6d*16+65*16+00*373+66*545+72*16+6a*16+62*16+6e*16+66*16+00*372+67*546+73*16+6b*16+63*16+6f*16+67*16+00*371+68*547+74*16+6c*16+64*16+70*16+68*16+00*370+69*548+61*16+6d*16+65*16+71*16+69*16
truncate f 9 = ok
pread f 0 9 = data 61*9
close f = ok
tree = / dir; /f file 9 61*9
";

const FIVE: &str = "\
# 33 blocks are staged by each write: two fit beside the file, so every second one ends the round.
row five_writes_of_33_blocks
image 96 16 16 16
open f /f rwc = fd 0
pwrite f 100 61*131072 = count 131072
pwrite f 100 62*131072 = count 131072
pwrite f 100 63*131072 = count 131072
pwrite f 100 64*131072 = count 131072
pwrite f 100 65*131072 = count 131072
pread f 98 4 = data 00006565
close f = ok
tree = / dir; /f file 131172 00*100+65*131072
";

#[test]
fn the_fifth_write_begins_a_lap(rt: HostRuntime) -> Result<(), Fail> {
    assert_losses(&rt, FEW, 1)
}

#[test]
fn staging_is_used_up(rt: HostRuntime) -> Result<(), Fail> {
    assert_losses(&rt, STAGING, 1)
}

#[test]
fn the_longest_file(rt: HostRuntime) -> Result<(), Fail> {
    assert_part(&rt, "losses every 400 from 20 to 2660", LONGEST)
}

#[test]
fn the_longest_file_is_written_0(rt: HostRuntime) -> Result<(), Fail> {
    assert_part(&rt, "losses every 74 from 85 to 1270", LONGEST)
}

#[test]
fn the_longest_file_is_written_1(rt: HostRuntime) -> Result<(), Fail> {
    assert_part(&rt, "losses every 74 from 122 to 1270", LONGEST)
}

#[test]
fn room_is_used_and_given_back_0(rt: HostRuntime) -> Result<(), Fail> {
    assert_part(&rt, "losses every 39 from 0", ROOM)
}

#[test]
fn room_is_used_and_given_back_1(rt: HostRuntime) -> Result<(), Fail> {
    assert_part(&rt, "losses every 39 from 13", ROOM)
}

#[test]
fn room_is_used_and_given_back_2(rt: HostRuntime) -> Result<(), Fail> {
    assert_part(&rt, "losses every 39 from 26", ROOM)
}

#[test]
fn fifty_writes_in_four_lines_0(rt: HostRuntime) -> Result<(), Fail> {
    assert_part(&rt, "losses every 39 from 0", FIFTY)
}

#[test]
fn fifty_writes_in_four_lines_1(rt: HostRuntime) -> Result<(), Fail> {
    assert_part(&rt, "losses every 39 from 13", FIFTY)
}

#[test]
fn fifty_writes_in_four_lines_2(rt: HostRuntime) -> Result<(), Fail> {
    assert_part(&rt, "losses every 39 from 26", FIFTY)
}

#[test]
fn fifty_writes_in_sync_mode(rt: HostRuntime) -> Result<(), Fail> {
    assert_part(&rt, "modes sync\nlosses every 97", FIFTY)
}

#[test]
fn five_writes_of_33_blocks_0(rt: HostRuntime) -> Result<(), Fail> {
    assert_part(&rt, "losses every 39 from 0", FIVE)
}

#[test]
fn five_writes_of_33_blocks_1(rt: HostRuntime) -> Result<(), Fail> {
    assert_part(&rt, "losses every 39 from 13", FIVE)
}

#[test]
fn five_writes_of_33_blocks_2(rt: HostRuntime) -> Result<(), Fail> {
    assert_part(&rt, "losses every 39 from 26", FIVE)
}
