//! Scripts in sync mode, by their events and by their steps. All rows are worked by hand.
use crate::asserting::assert_sessions;
use std::test::Fail;

const EVENTS: &str = "\
# The append begins in the block of the file's old end, which is staged with it. Events: 1, 6, then Begin, Fill, Claim, Store, Persist.
row sync_append_across_blocks
file S open a /f wc; write a 61*5000; write a 62*10
step - S sync cut 12 = 0.0 open a /f wc = fd 0; 0.1 write a 61*5000 = count 5000; / dir; /f file 5010 61*5000+62*10
step - S sync cut 12 choose newest = 0.0 open a /f wc = fd 0; 0.1 write a 61*5000 = count 5000; / dir; /f file 5010 61*5000+62*10
step - S sync cut 12 choose even = 0.0 open a /f wc = fd 0; 0.1 write a 61*5000 = count 5000; / dir; /f file 5010 61*5000+62*10
step - S sync cut 12 choose odd = 0.0 open a /f wc = fd 0; 0.1 write a 61*5000 = count 5000; / dir; /f file 5010 61*5000+62*10
step - S sync cut 12 choose 7 = 0.0 open a /f wc = fd 0; 0.1 write a 61*5000 = count 5000; / dir; /f file 5010 61*5000+62*10

# Six bytes lie before the block of the file's old end: they are written in place by Finish, 13, once the entry is durable, 12. Behind
# Store, 11, the entry counts where the medium has all of its words. In strict mode all is there with the entry.
row a_front_is_written_behind_its_entry
file S open a /f wc; write a 61*5000; pwrite a 4090 62*1000
step - S sync cut 8 choose newest = 0.0 open a /f wc = fd 0; 0.1 write a 61*5000 = count 5000; / dir; /f file 5000 61*5000
step - S sync cut 9 choose newest = 0.0 open a /f wc = fd 0; 0.1 write a 61*5000 = count 5000; / dir; /f file 5000 61*5000
step - S sync cut 10 choose newest = 0.0 open a /f wc = fd 0; 0.1 write a 61*5000 = count 5000; / dir; /f file 5000 61*5000
step - S sync cut 11 = 0.0 open a /f wc = fd 0; 0.1 write a 61*5000 = count 5000; / dir; /f file 5000 61*5000
step - S sync cut 11 choose even = 0.0 open a /f wc = fd 0; 0.1 write a 61*5000 = count 5000; / dir; /f file 5000 61*5000
step - S sync cut 11 choose odd = 0.0 open a /f wc = fd 0; 0.1 write a 61*5000 = count 5000; / dir; /f file 5000 61*5000
step - S sync cut 11 choose newest = 0.0 open a /f wc = fd 0; 0.1 write a 61*5000 = count 5000; / dir; /f file 5090 61*4096+62*994
step - S sync cut 12 = 0.0 open a /f wc = fd 0; 0.1 write a 61*5000 = count 5000; / dir; /f file 5090 61*4096+62*994
step - S sync cut 12 choose newest = 0.0 open a /f wc = fd 0; 0.1 write a 61*5000 = count 5000; / dir; /f file 5090 61*4096+62*994
step - S sync cut 12 choose even = 0.0 open a /f wc = fd 0; 0.1 write a 61*5000 = count 5000; / dir; /f file 5090 61*4096+62*994
step - S sync cut 12 choose odd = 0.0 open a /f wc = fd 0; 0.1 write a 61*5000 = count 5000; / dir; /f file 5090 61*4096+62*994
step - S sync cut 13 = 0.0 open a /f wc = fd 0; 0.1 write a 61*5000 = count 5000; 0.2 pwrite a 4090 62*1000 = count 1000; / dir; /f file 5090 61*4090+62*1000
step - S strict cut 12 = 0.0 open a /f wc = fd 0; 0.1 write a 61*5000 = count 5000; / dir; /f file 5090 61*4090+62*1000

# Two bytes over the border of two blocks, within the length: one event in sync mode, and six in strict mode.
row an_overwrite_is_one_event
file S open a /f rwc; write a 61*8192; pwrite a 4095 6262
step - S sync cut 7 = 0.0 open a /f rwc = fd 0; 0.1 write a 61*8192 = count 8192; / dir; /f file 8192 61*8192
step - S sync cut 8 = 0.0 open a /f rwc = fd 0; 0.1 write a 61*8192 = count 8192; 0.2 pwrite a 4095 6262 = count 2; / dir; /f file 8192 61*4095+62*2+61*4095
step - S strict cut 8 choose newest = 0.0 open a /f rwc = fd 0; 0.1 write a 61*8192 = count 8192; / dir; /f file 8192 61*8192
step - S strict cut 12 = 0.0 open a /f rwc = fd 0; 0.1 write a 61*8192 = count 8192; / dir; /f file 8192 61*4095+62*2+61*4095

# 56 data blocks, of which 4 are the reserve. /g has one, staged, beside its chain block and 25 more that the staging file got with it:
# 29 are free. The overwrite is of 32 blocks that are absent: 32, and 1 for what is staged, and 2 are more. So its Begin is no event;
# the Checkpoint is, 10, and the next one is the call's. It begins a lap: the log's base is 1, 5 behind the mount, 9 behind it.
row holes_end_a_round
mkfs g 64 4 16 16 = 56 data blocks
file S open g /g wc; write g 61; open f /f wc; truncate f 184320; pwrite f 0 62*131072
step g S sync cut 9 keep h = 0.0 open g /g wc = fd 0; 0.1 write g 61 = count 1; 0.2 open f /f wc = fd 1; 0.3 truncate f 184320 = ok; / dir; /f file 184320 00*184320; /g file 1 61
bytes h 128 8 = 9 0 0 0 0 0 0 0
step g S sync cut 10 keep h = 0.0 open g /g wc = fd 0; 0.1 write g 61 = count 1; 0.2 open f /f wc = fd 1; 0.3 truncate f 184320 = ok; / dir; /f file 184320 00*184320; /g file 1 61
bytes h 128 8 = 13 0 0 0 0 0 0 0
step g S sync cut 11 keep h = 0.0 open g /g wc = fd 0; 0.1 write g 61 = count 1; 0.2 open f /f wc = fd 1; 0.3 truncate f 184320 = ok; 0.4 pwrite f 0 62*131072 = count 131072; / dir; /f file 184320 62*131072+00*53248; /g file 1 61
bytes h 128 8 = 13 0 0 0 0 0 0 0
# With nothing staged it goes at once: the run has three events.
file T open f /f wc; truncate f 184320; pwrite f 0 62*131072
step g T sync cut 3 keep h = 0.0 open f /f wc = fd 0; 0.1 truncate f 184320 = ok; 0.2 pwrite f 0 62*131072 = count 131072; / dir; /f file 184320 62*131072+00*53248
bytes h 128 8 = 9 0 0 0 0 0 0 0
# Of strict mode the blocks are asked for a second time: 46 and 2 are held, and 4 are left.
step g S strict = 0.0 open g /g wc = fd 0; 0.1 write g 61 = count 1; 0.2 open f /f wc = fd 1; 0.3 truncate f 184320 = ok; 0.4 pwrite f 0 62*131072 = ENOSPC blocks 32 4; / dir; /f file 184320 00*184320; /g file 1 61
";

const STEPS: &str = "\
# A power that ends with the last step of a call leaves its whole effect, and the call unfinished; with one step more it returns. The
# open takes 48 steps, the write of two blocks 1,164 and 33 for the first blocks of a staging file, and the fsync 58: 1,303.
row steps_of_sync_mode
mkfs g 64 4 16 16 = 56 data blocks
file S open a /f wc; write a 61*8192; fsync a; pwrite a 4096 62*4096; pwrite a 0 63; write a 64*4096; pwrite a 8191 6565
# A block within the length: 512 stores, 64 flushes and a fence, 577.
step g S sync stop 1304 = 0.0 open a /f wc = fd 0; 0.1 write a 61*8192 = count 8192; 0.2 fsync a = ok; / dir; /f file 8192 61*8192
step g S sync stop 1880 = 0.0 open a /f wc = fd 0; 0.1 write a 61*8192 = count 8192; 0.2 fsync a = ok; / dir; /f file 8192 61*4096+62*4096
step g S sync stop 1881 = 0.0 open a /f wc = fd 0; 0.1 write a 61*8192 = count 8192; 0.2 fsync a = ok; 0.3 pwrite a 4096 62*4096 = count 4096; / dir; /f file 8192 61*4096+62*4096
# A byte within it: a store, a flush and a fence.
step g S sync stop 1883 = 0.0 open a /f wc = fd 0; 0.1 write a 61*8192 = count 8192; 0.2 fsync a = ok; 0.3 pwrite a 4096 62*4096 = count 4096; / dir; /f file 8192 63+61*4095+62*4096
step g S sync stop 1884 = 0.0 open a /f wc = fd 0; 0.1 write a 61*8192 = count 8192; 0.2 fsync a = ok; 0.3 pwrite a 4096 62*4096 = count 4096; 0.4 pwrite a 0 63 = count 1; / dir; /f file 8192 63+61*4095+62*4096
# A block behind the end is staged and logged: 577, and 10 for its entry.
step g S sync stop 2468 = 0.0 open a /f wc = fd 0; 0.1 write a 61*8192 = count 8192; 0.2 fsync a = ok; 0.3 pwrite a 4096 62*4096 = count 4096; 0.4 pwrite a 0 63 = count 1; / dir; /f file 8192 63+61*4095+62*4096
step g S sync stop 2470 = 0.0 open a /f wc = fd 0; 0.1 write a 61*8192 = count 8192; 0.2 fsync a = ok; 0.3 pwrite a 4096 62*4096 = count 4096; 0.4 pwrite a 0 63 = count 1; / dir; /f file 12288 63+61*4095+62*4096+64*4096
step g S sync stop 2471 = 0.0 open a /f wc = fd 0; 0.1 write a 61*8192 = count 8192; 0.2 fsync a = ok; 0.3 pwrite a 4096 62*4096 = count 4096; 0.4 pwrite a 0 63 = count 1; 0.5 write a 64*4096 = count 4096; / dir; /f file 12288 63+61*4095+62*4096+64*4096
# Two bytes, of which the second lies in the block that is staged: each has a store, a flush and a fence of its own.
step g S sync stop 2472 = 0.0 open a /f wc = fd 0; 0.1 write a 61*8192 = count 8192; 0.2 fsync a = ok; 0.3 pwrite a 4096 62*4096 = count 4096; 0.4 pwrite a 0 63 = count 1; 0.5 write a 64*4096 = count 4096; / dir; /f file 12288 63+61*4095+62*4096+64*4096
step g S sync stop 2472 choose newest = 0.0 open a /f wc = fd 0; 0.1 write a 61*8192 = count 8192; 0.2 fsync a = ok; 0.3 pwrite a 4096 62*4096 = count 4096; 0.4 pwrite a 0 63 = count 1; 0.5 write a 64*4096 = count 4096; / dir; /f file 12288 63+61*4095+62*4095+65+64*4096
step g S sync stop 2474 = 0.0 open a /f wc = fd 0; 0.1 write a 61*8192 = count 8192; 0.2 fsync a = ok; 0.3 pwrite a 4096 62*4096 = count 4096; 0.4 pwrite a 0 63 = count 1; 0.5 write a 64*4096 = count 4096; / dir; /f file 12288 63+61*4095+62*4095+65+64*4096
step g S sync stop 2475 choose newest = 0.0 open a /f wc = fd 0; 0.1 write a 61*8192 = count 8192; 0.2 fsync a = ok; 0.3 pwrite a 4096 62*4096 = count 4096; 0.4 pwrite a 0 63 = count 1; 0.5 write a 64*4096 = count 4096; / dir; /f file 12288 63+61*4095+62*4095+65*2+64*4095
step g S sync stop 2476 = 0.0 open a /f wc = fd 0; 0.1 write a 61*8192 = count 8192; 0.2 fsync a = ok; 0.3 pwrite a 4096 62*4096 = count 4096; 0.4 pwrite a 0 63 = count 1; 0.5 write a 64*4096 = count 4096; / dir; /f file 12288 63+61*4095+62*4095+65*2+64*4095
step g S sync stop 2477 = 0.0 open a /f wc = fd 0; 0.1 write a 61*8192 = count 8192; 0.2 fsync a = ok; 0.3 pwrite a 4096 62*4096 = count 4096; 0.4 pwrite a 0 63 = count 1; 0.5 write a 64*4096 = count 4096; 0.6 pwrite a 8191 6565 = count 2; / dir; /f file 12288 63+61*4095+62*4095+65*2+64*4095
";

#[test]
fn events_of_sync_mode(rt: HostRuntime) -> Result<(), Fail> {
    assert_sessions(&rt, EVENTS, 4)
}

#[test]
fn steps_of_sync_mode(rt: HostRuntime) -> Result<(), Fail> {
    assert_sessions(&rt, STEPS, 1)
}
