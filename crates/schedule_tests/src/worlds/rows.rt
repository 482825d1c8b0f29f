//! Worlds run by hand. All rows are worked by hand; the log has four lines.
use crate::worlds::telling::world_told;
use std::test::Fail;
use test_kit::assert_rows;

const ROWS: &str = "\
# A call of thread 0, which takes the next line of the log.
lines call
0 = begun
0 = filled
0 = claimed #
0 = stored
0 = persisted
0 = returned

# Two jobs are out at once, while a third call waits for the first one's file. The second is durable in its line, and finishes
# behind the loss; the first has claimed a line, in which nothing stands.
row two_jobs_out_and_one_busy
script setup; open x /x wc; open y /y wc; open z /x w; thread; write x 61; thread; write y 62; thread; write z 63
left 3 0 1
left-oldest / dir; /x file 0; /y file 1 62
left-newest / dir; /x file 0; /y file 1 62
s = returned
s = returned
0 = waits
s = returned
0 = begun
1 = begun
2 = busy 0
0 = filled
0 = claimed 0
1 = filled
1 = claimed 1
2 = busy 0
1 = stored
1 = persisted
lose = lost
finish 1 = power lost

# Three calls of thread 0 returned, and its fourth has the last line, durable: the power goes between its claim and its finish.
# Behind that thread 1 finds no line left, and its job is given up: its call is not among the unfinished.
row lost_between_a_claim_and_a_finish
script setup; open x /x wc; open y /y wc; thread; write x 61; write x 61; write x 61; write x 61; thread; write y 62
left 5 0
left-oldest / dir; /x file 4 61616161; /y file 0
left-newest / dir; /x file 4 61616161; /y file 0
s = returned
s = returned
for 0 to 2: do call
0 = begun
1 = begun
1 = filled
0 = filled
0 = claimed 3
0 = stored
0 = persisted
lose = lost
finish 0 = power lost
give 1 = given up

# Likewise, but the job is given up before the other one finishes, and a third one has only begun.
row given_up_before_a_finish
script setup; open x /x wc; open y /y wc; open z /z wc; thread; write x 61; write x 61; write x 61; write x 61; thread; write y 62; thread; write z 63
left 6 2 0
left-oldest / dir; /x file 4 61616161; /y file 0; /z file 0
left-newest / dir; /x file 4 61616161; /y file 0; /z file 0
s = returned
s = returned
s = returned
for 0 to 2: do call
1 = begun
2 = begun
0 = begun
0 = filled
1 = filled
0 = claimed 3
0 = stored
0 = persisted
lose = lost
give 1 = given up
finish 0 = power lost

# A crash with a job at each stage, the power on. What stands in its line, flushed or not, is there where the medium has all of it.
row crash_with_jobs_at_each_stage
script setup; open a /a wc; open b /b wc; open c /c wc; open d /d wc; open e /e wc; thread; write a 61; thread; write b 62; thread; write c 63; thread; write d 64; thread; write e 65
left 5 0 1 2 3 4
left-oldest / dir; /a file 0; /b file 0; /c file 0; /d file 0; /e file 1 65
left-newest / dir; /a file 0; /b file 0; /c file 0; /d file 1 64; /e file 1 65
left-even / dir; /a file 0; /b file 0; /c file 0; /d file 0; /e file 1 65
left-odd / dir; /a file 0; /b file 0; /c file 0; /d file 0; /e file 1 65
for 0 to 4: s = returned
for 0 to 4: # = begun
for 1 to 4: # = filled
2 = claimed 0
3 = claimed 1
4 = claimed 2
3 = stored
4 = stored
4 = persisted

# The same behind a loss that the World is told; the last one finishes, and is unfinished all the same.
row lost_with_jobs_at_each_stage
script setup; open a /a wc; open b /b wc; open c /c wc; open d /d wc; open e /e wc; thread; write a 61; thread; write b 62; thread; write c 63; thread; write d 64; thread; write e 65
left 5 0 1 2 3 4
left-oldest / dir; /a file 0; /b file 0; /c file 0; /d file 0; /e file 1 65
left-newest / dir; /a file 0; /b file 0; /c file 0; /d file 1 64; /e file 1 65
for 0 to 4: s = returned
for 0 to 4: # = begun
for 1 to 4: # = filled
2 = claimed 0
3 = claimed 1
4 = claimed 2
3 = stored
4 = stored
4 = persisted
lose = lost
finish 4 = power lost

# Two jobs with no line left: one is given up while the power is on, so that the round is over, and one behind the loss.
row given_up_on_both_sides_of_a_loss
script setup; open x /x wc; open y /y wc; open z /z wc; thread; write x 61; write x 61; write x 61; write x 61; write x 61; thread; write y 62; thread; write z 63
left 7
left-oldest / dir; /x file 4 61616161; /y file 0; /z file 0
left-newest / dir; /x file 4 61616161; /y file 0; /z file 0
s = returned
s = returned
s = returned
1 = begun
2 = begun
for 0 to 3: do call
2 = filled
1 = filled
1 = given up
1 = round over
0 = round over
lose = lost
give 2 = given up

# A call of the set-up, which takes the next line of the log.
lines written
s = begun
s = filled
s = claimed #
s = stored
s = persisted
s = returned

# In sync mode. A write over the end of its file is a job: from 4,096 on its bytes are staged, and the 96 before them are written by
# its finish, which the loss forestalls. Beside it an overwrite of another file is one event; one of its own file waits.
row sync_overwrite_beside_a_job
mode sync
script setup; open x /x wc; open y /y wc; write x 61*5000; write y 64; thread; pwrite x 4000 62*1100; thread; pwrite y 0 63; thread; pwrite x 0 65
left 5 0
left-oldest / dir; /x file 5100 61*4096+62*1004; /y file 1 63
left-newest / dir; /x file 5100 61*4096+62*1004; /y file 1 63
s = returned
s = returned
for 0 to 1: do written
0 = begun
1 = returned
2 = busy 0
0 = filled
0 = claimed 2
0 = stored
0 = persisted
lose = lost
finish 0 = power lost
";

#[test]
fn worlds_run_by_hand(rt: HostRuntime) -> Result<(), Fail> {
    assert_rows(&rt, ROWS, 7, &world_told)?;
    Ok(())
}
