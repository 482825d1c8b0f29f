//! Maps worked by hand.
use crate::runner::told;
use std::test::Fail;
use test_kit::assert_rows;

const MAPS: &str = "\
# Data blocks are 8 to 127, and the reserve is 4. Worked by hand from what each call makes of a volume.
# The hole of block 0 of a file of 4,096 bytes: it reads zeros, and is mapped. The block is 8, the chain 9.
row a_hole_is_filled
size 5 4096 = ok
map 5 = size 4096 applied 0 root 0
free = 120
fill 5 0 1 = ok
map 5 = size 4096 applied 0 root 9 0:8x1
free = 118
bytes 5 0 4 = 0 0 0 0
fill 5 0 1 = ok
map 5 = size 4096 applied 0 root 9 0:8x1

# In place over a block border.
row in_place_over_a_border_and_cut
size 5 8192 = ok
fill 5 0 2 = ok
map 5 = size 8192 applied 0 root 10 0:8x2
write 5 4094 4 7 = ok
bytes 5 4093 6 = 0 7 7 7 7 0
write 5 8190 4 7 = unfit
# Down and up again: what lay past the end is dropped, up the map stays where it is, and the new block reads zeros.
size 5 4096 = ok
map 5 = size 4096 applied 0 root 11 0:8x1
size 5 8192 = ok
map 5 = size 8192 applied 0 root 11 0:8x1
fill 5 1 1 = ok
map 5 = size 8192 applied 0 root 10 0:8x2
bytes 5 4093 6 = 0 7 7 0 0 0

# The size stays, and blocks past the end are dropped.
row blocks_past_the_end
size 5 4096 = ok
fill 5 0 3 = ok
map 5 = size 4096 applied 0 root 11 0:8x3
size 5 4096 = ok
map 5 = size 4096 applied 0 root 12 0:8x1
free = 118

# The tail is cleaned from the end on, and no byte before it.
row a_tail_is_cleaned
size 5 10 = ok
fill 5 0 1 = ok
write 5 0 16 7 = ok
clean 5 9 = unfit
clean 5 10 = ok
bytes 5 8 4 = 7 7 0 0

# Holes among mapped blocks.
row holes_among_blocks
fill 5 1 1 = ok
map 5 = size 0 applied 0 root 9 1:8x1
fill 5 0 3 = ok
map 5 = size 0 applied 0 root 12 0:10x1 1:8x1 2:11x1
free = 116

# 64 blocks of a pool with a gap: the lowest. Given up, they are free.
row sixty_four_blocks_taken
fill 5 0 1 = ok
fill 6 0 1 = ok
size 5 0 = ok
map 5 = size 0 applied 0 root 0
take 1 64 = ok
map 1 = size 0 applied 0 root 74 0:8x2 2:12x62
free = 53
take 1 1 = unfit
give 1 = ok
map 1 = size 0 applied 0 root 0
free = 118

# Blocks go into the middle of a file over others, with its size and the order of its last entry.
row blocks_are_moved
fill 5 0 4 = ok
map 5 = size 0 applied 0 root 12 0:8x4
take 1 4 = ok
map 1 = size 0 applied 0 root 17 0:13x4
stage 1 1 4094 2 9 = ok
stage 1 2 0 2 9 = ok
move 1 1 5 2 2 16000 3 = ok
map 5 = size 16000 applied 3 root 18 0:8x2 2:14x2
map 1 = size 0 applied 0 root 19 0:13x1 3:16x1
free = 112
bytes 5 12285 6 = 0 9 9 9 9 0
move 1 1 5 0 1 16000 4 = unfit

# The pool is used up: a hole too many, and then a hole at all.
row the_pool_is_used_up
fill 5 0 119 = room blocks 121 120
fill 5 0 118 = ok
free = 1
fill 6 0 1 = room blocks 3 1
map 6 = size 0 applied 0 root 0

# A map of 256 extents has two chain blocks, of 255 one. The k-th fill has block k + 7 from the fifth on.
row a_map_of_256_extents
image 640
spread 5 256 = ok
free = 374
size 5 2084864 = ok
free = 376
size 5 4096 = ok
map 5 = size 4096 applied 0 root 263 0:8x1
free = 630

# A block is lent, stored into and settled.
row a_block_is_lent
take 2 2 = ok
lend 2 1 3 77 = ok
lend 2 2 3 77 = unfit
lend 5 0 3 77 = unfit
bytes 2 4120 2 = 77 0

# A write over a block border that is cut off.
row a_write_is_cut_off
image 64
size 5 8192 = ok
fill 5 0 2 = ok
write 5 4000 100 5 = ok
torn write 5 4094 4 7 = 4 bytes, old or new
# The bytes up to 4,099 are 5 already.
torn write 5 4090 20 5 = 10 bytes, old or new

# A relink into the middle of a file that is cut off: the old maps or the new ones.
row a_move_is_cut_off
image 64
size 5 16384 = ok
fill 5 0 4 = ok
take 1 4 = ok
cut move 1 1 5 2 2 16000 3 = old or new

# Three runs of file 5: blocks 1 to 3 from staging file 1, 3 and 4 from staging file 2, and 3 from staging file 1. The file
# has blocks 8 to 11 and chain block 12, staging file 1 has 13 to 16 and 17, staging file 2 has 18 to 20 and 21, and file 6
# has 22 and 23. Two blocks that are hidden, and one that no run has, read zeros. The length of the file and its blocks are
# those of the three runs, before and after, and the maps are those that were worked by hand.
row three_runs_are_published_at_each_stop
image 64
size 5 16384 = ok
fill 5 0 4 = ok
write 5 0 16384 1 = ok
take 1 4 = ok
take 2 3 = ok
stage 1 0 0 4096 11 = ok
stage 1 1 0 4096 12 = ok
stage 1 3 0 4096 14 = ok
stage 2 1 0 4096 22 = ok
size 6 4096 = ok
fill 6 0 1 = ok
write 6 0 4096 31 = ok
enter = ok
reads = 20000 bytes, blocks of 1 11 12 14 22
kept publish = read as before with 0 to 3 runs published
publish = ok
reads = 20000 bytes, blocks of 1 11 12 14 22
bytes 6 0 2 = 31 31
free = 46
map 1 = size 0 applied 0 root 0
map 2 = size 0 applied 0 root 10 2:20x1
map 5 = size 20000 applied 3 root 11 0:8x1 1:13x2 3:16x1 4:19x1
map 6 = size 4096 applied 0 root 23 0:22x1
";

#[test]
fn maps_worked_by_hand(rt: HostRuntime) -> Result<(), Fail> {
    assert_rows(&rt, MAPS, 13, &told)?;
    Ok(())
}
