//! The worked runs, whose scripts `split_cases` hands out: what each puts, worked by hand from the rules.
use crate::asserting::assert_sessions;
use std::test::Fail;

const WORKED: &str = "\
# Names alone.
row names
script S 0
step - S strict = / dir
script S 1
step - S strict = 0.0 mkdir /a = ok; / dir; /a dir
step - S strict stop 0 = / dir
script S 2
step - S strict = 0.0 mkdir /a = ok; 0.1 mkdir /a = EEXIST; / dir; /a dir
script S 14
step - S strict = splitfs: bad script: line 1

# What was written is read.
row written_and_read
script S 3
step - S strict = 0.0 open a /f rwc = fd 0; 0.1 write a 6869 = count 2; 0.2 seek a set 0 = offset 0; 0.3 read a 9 = data 6869; / dir; /f file 2 6869
script S 8
step - S strict cut 2 = 0.0 open a /f wc = fd 0; / dir; /f file 0
step - S strict = 0.0 open a /f wc = fd 0; 0.1 write a 6869 = count 2; / dir; /f file 2 6869
script S 9
step - S strict = 0.0 open a /f wc = fd 0; 0.1 write a 6869 = count 2; 0.2 fsync a = ok; 0.3 pwrite a 0 48 = count 1; 0.4 write a 21 = count 1; / dir; /f file 3 486921

# A logged call takes six events: Begin, Fill, Claim, Store, Persist, Finish; every other one. All rows are worked by hand.
# Behind the store of its entry a write is there where the medium has the entry's words.
row claimed_entry_not_yet_durable
script S 4
step - S strict cut 5 = 0.0 open a /f rwc = fd 0; / dir; /f file 0
step - S strict cut 5 choose even = 0.0 open a /f rwc = fd 0; / dir; /f file 0
step - S strict cut 5 choose odd = 0.0 open a /f rwc = fd 0; / dir; /f file 0
step - S strict cut 5 choose newest = 0.0 open a /f rwc = fd 0; / dir; /f file 2 6869
step - S strict cut 6 = 0.0 open a /f rwc = fd 0; / dir; /f file 2 6869
step - S strict cut 0 = / dir
# The run has seven events: the cut of seven comes before the unmount, that of eight never.
step - S strict cut 7 = 0.0 open a /f rwc = fd 0; 0.1 write a 6869 = count 2; / dir; /f file 2 6869
step - S strict cut 8 = 0.0 open a /f rwc = fd 0; 0.1 write a 6869 = count 2; / dir; /f file 2 6869

# The set-up comes first. Thread 0 begins, fills and claims; thread 1 logs its write behind that slot, which stays empty.
row hole_in_the_log
script S 5
step - S strict order 0,0,0,1,1,1,1,1,1 cut 11 = s.0 open x /x wc = fd 0; s.1 open y /y wc = fd 1; 1.0 write y 62 = count 1; / dir; /x file 0; /y file 1 62
step - S strict order 0,0,0,1,1,1,1,1,1 cut 11 choose newest = s.0 open x /x wc = fd 0; s.1 open y /y wc = fd 1; 1.0 write y 62 = count 1; / dir; /x file 0; /y file 1 62
step - S strict order 0,0,0,1,1,1,1,1,1 = s.0 open x /x wc = fd 0; s.1 open y /y wc = fd 1; 1.0 write y 62 = count 1; 0.0 write x 61 = count 1; / dir; /x file 1 61; /y file 1 62
# In turn: both begin, and thread 0 is first at each event.
step - S strict = s.0 open x /x wc = fd 0; s.1 open y /y wc = fd 1; 0.0 write x 61 = count 1; 1.0 write y 62 = count 1; / dir; /x file 1 61; /y file 1 62

# A name goes over that of a busy file: the write in flight finds its file without a name.
row rename_over_a_busy_file
script S 11
step - S strict order 0,0,1 cut 17 = s.0 open f /f wc = fd 0; s.1 write f 61 = count 1; s.2 open g /g wc = fd 1; s.3 write g 62 = count 1; 1.0 rename /g /f = ok; / dir; /f file 1 62
step - S strict order 0,0,1 cut 17 choose newest = s.0 open f /f wc = fd 0; s.1 write f 61 = count 1; s.2 open g /g wc = fd 1; s.3 write g 62 = count 1; 1.0 rename /g /f = ok; / dir; /f file 1 62
step - S strict order 0,0,1 cut 17 choose 7 = s.0 open f /f wc = fd 0; s.1 write f 61 = count 1; s.2 open g /g wc = fd 1; s.3 write g 62 = count 1; 1.0 rename /g /f = ok; / dir; /f file 1 62

# An open file without a name is written and read, and is gone behind the loss.
row write_to_an_unlinked_file
script S 10
step - S strict cut 9 = 0.0 open a /f rwc = fd 0; 0.1 unlink /f = ok; 0.2 write a 6869 = count 2; 0.3 pread a 0 9 = data 6869; / dir

# Four lines of the log: the fifth write's claim finds them full, and a Checkpoint is an event: 1, 24, then Begin, Fill, Claim,
# Checkpoint and six.
row new_lap_of_the_log
mkfs g 64 4 16 16 = 56 data blocks
script S 6
step g S strict cut 35 = 0.0 open a /f wc = fd 0; 0.1 write a 61 = count 1; 0.2 write a 61 = count 1; 0.3 write a 61 = count 1; 0.4 write a 61 = count 1; 0.5 write a 61 = count 1; / dir; /f file 5 6161616161
step g S strict cut 34 = 0.0 open a /f wc = fd 0; 0.1 write a 61 = count 1; 0.2 write a 61 = count 1; 0.3 write a 61 = count 1; 0.4 write a 61 = count 1; / dir; /f file 5 6161616161
step g S strict cut 29 = 0.0 open a /f wc = fd 0; 0.1 write a 61 = count 1; 0.2 write a 61 = count 1; 0.3 write a 61 = count 1; 0.4 write a 61 = count 1; / dir; /f file 4 61616161

# Of 56 blocks 32 are wanted a second time, beside 33 that are held and 4 that are kept back.
row room_runs_out
mkfs g 64 4 16 16 = 56 data blocks
script S 12
step g S strict = 0.0 open a /f wc = fd 0; 0.1 write a 78*131072 = count 131072; 0.2 write a 78*131072 = ENOSPC blocks 32 19; / dir; /f file 131072 78*131072

# Over the border of two blocks, and shorter and longer again.
row overwritten_and_cut
mkfs g 64 4 16 16 = 56 data blocks
script S 7
step g S strict = 0.0 open a /f rwc = fd 0; 0.1 write a 61*8192 = count 8192; 0.2 pwrite a 4095 6262 = count 2; / dir; /f file 8192 61*4095+62*2+61*4095
script S 13
step g S strict = 0.0 open a /f rwc = fd 0; 0.1 write a 61*5000 = count 5000; 0.2 truncate a 10 = ok; 0.3 truncate a 5000 = ok; / dir; /f file 5000 61*10+00*4990

# The stored run of the program (crates/splitfs/data/S), which has nine kinds of calls.
row stored_run
script S 15
step - S strict = 0.0 mkdir /d = ok; 0.1 open w /d/h wc = fd 0; 0.2 write w 68656c6c6f = count 5; 0.3 close w = ok; 0.4 open a /d/f wc = fd 0; 0.5 dup a b = fd 1; 0.6 close a = ok; 0.7 rename /d/f /d/g = ok; 0.8 stat /d/g = file 0; 0.9 unlink /d/g = ok; 0.10 list /d = names h; 0.11 mkdir /d/e = ok; / dir; /d dir; /d/e dir; /d/h file 5 68656c6c6f
";

#[test]
fn worked_runs(rt: HostRuntime) -> Result<(), Fail> {
    assert_sessions(&rt, WORKED, 10)
}
