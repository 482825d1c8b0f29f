//! Scripts of databases.
use crate::parts::{assert_losses, assert_part};
use std::test::Fail;

const DATABASES: &str = "\
# examples/rollback_journal.txt: where the journal stands, the page is taken back from it.
row a_database_with_a_rollback_journal
modes strict sync
image 64 16 16 16
losses every 13
open db /db rwc = fd 0
write db 61*8192 = count 8192
open journal /journal rwcx = fd 1
write journal 0101010101010101 = count 8
write journal 61*4096 = count 4096
fsync journal = ok
pwrite db 4096 62*4096 = count 4096
fsync db = ok
close journal = ok
unlink /journal = ok
read db 0 = data -
close db = ok
tree = / dir; /db file 8192 61*4096+62*4096

# examples/key_value_log.txt: each record is there whole as soon as its write returned.
row a_key_value_log
modes strict sync
image 64 16 16 16
losses every 13
open log /log rwac = fd 0
write log 70757420613d310a = count 8
write log 70757420623d320a = count 8
write log 64656c20610a = count 6
fsync log = ok
read log 64 = data -
open new /log.new wc = fd 1
write new 70757420623d320a = count 8
fsync new = ok
rename /log.new /log = ok
close new = ok
close log = ok
tree = / dir; /log file 8 70757420623d320a
";

const JOURNAL: &str = "\
# A database writes a journal behind the name of its old one.
row database_journal
image 64 16 16 16
mkdir /db = ok
open o /db/old wc = fd 0
write o 6f*100 = count 100
tree = / dir; /db dir; /db/old file 100 6f*100
close o = ok
open j /db/new wc = fd 0
tree = / dir; /db dir; /db/new file 0; /db/old file 100 6f*100
for 1 to 40: write j 6a*512 = count 512
fsync j = ok
tree = / dir; /db dir; /db/new file 20480 6a*20480; /db/old file 100 6f*100
rename /db/new /db/journal = ok
tree = / dir; /db dir; /db/journal file 20480 6a*20480; /db/old file 100 6f*100
unlink /db/old = ok
tree = / dir; /db dir; /db/journal file 20480 6a*20480
";

const SQLITE: &str = "\
# examples/sqlite.txt: what SQLite 3.40 did for two accounts and a transfer between them. Its calls were made again in a fresh
# directory of an ext4 file system under Linux 6.18, which answered so and left this tree.
row sqlite_behind_a_rollback_journal
modes strict sync
losses every 997
stat /bank.db = ENOENT
open bankdb /bank.db rwc = fd 0
stat /bank.db = file 0
pread bankdb 0 100 = data -
stat /bank.db-journal = ENOENT
stat /bank.db-wal = ENOENT
stat /bank.db-journal = ENOENT
pread bankdb 24 16 = data -
stat /bank.db-wal = ENOENT
stat /bank.db = file 0
open bankdbjo /bank.db-journal rwc = fd 1
pwrite bankdbjo 0 00*12+6f2d719d+00*6+0200000002+00*485 = count 512
pread bankdbjo 512 8 = data -
fsync bankdbjo = ok
pwrite bankdbjo 0 d9d505f920a163d700000000 = count 12
fsync bankdbjo = ok
pwrite bankdb 0 53514c69746520666f726d617420330002000101004020200000000100000003+00*11+0200000004+00*11+01+00*35+01002e63010d0000000201730001b60173+00*259+410206171d1d01577461626c657472616e736665727472616e7366657203435245415445205441424c45207472616e73666572286e756d62657220696e746567657229480106171b1b01697461626c656163636f756e746163636f756e7402435245415445205441424c45206163636f756e74286e616d6520746578742c206d6f6e657920696e746567657229 = count 512
pwrite bankdb 512 0d0000000201ee0001f701ee+00*482+0702031301626f6264070103130161646164 = count 512
pwrite bankdb 1024 0d0000000002+00*506 = count 512
fsync bankdb = ok
close bankdbjo = ok
unlink /bank.db-journal = ok
stat /bank.db-journal = ENOENT
pread bankdb 24 16 = data 0000000100000003+00*8
stat /bank.db-wal = ENOENT
stat /bank.db = file 1536
stat /bank.db = file 1536
open bankdbjo /bank.db-journal rwc = fd 1
pwrite bankdbjo 0 00*12+a835566c0000000300000200000002+00*485 = count 512
pwrite bankdbjo 512 00000002 = count 4
pwrite bankdbjo 516 0d0000000201ee0001f701ee+00*482+0702031301626f6264070103130161646164 = count 512
pwrite bankdbjo 1028 a835566c = count 4
pwrite bankdbjo 1032 00000003 = count 4
pwrite bankdbjo 1036 0d0000000002+00*506 = count 512
pwrite bankdbjo 1548 a835566c = count 4
pwrite bankdbjo 1552 00000001 = count 4
pwrite bankdbjo 1556 53514c69746520666f726d617420330002000101004020200000000100000003+00*11+0200000004+00*11+01+00*35+01002e63010d0000000201730001b60173+00*259+410206171d1d01577461626c657472616e736665727472616e7366657203435245415445205441424c45207472616e73666572286e756d62657220696e746567657229480106171b1b01697461626c656163636f756e746163636f756e7402435245415445205441424c45206163636f756e74286e616d6520746578742c206d6f6e657920696e746567657229 = count 512
pwrite bankdbjo 2068 a835566c = count 4
pread bankdbjo 2560 8 = data -
fsync bankdbjo = ok
pwrite bankdbjo 0 d9d505f920a163d700000003 = count 12
fsync bankdbjo = ok
pwrite bankdb 0 53514c69746520666f726d617420330002000101004020200000000200000003+00*11+0200000004+00*11+01+00*35+02002e63010d0000000201730001b60173+00*259+410206171d1d01577461626c657472616e736665727472616e7366657203435245415445205441424c45207472616e73666572286e756d62657220696e746567657229480106171b1b01697461626c656163636f756e746163636f756e7402435245415445205441424c45206163636f756e74286e616d6520746578742c206d6f6e657920696e746567657229 = count 512
pwrite bankdb 512 0d0000000201ee0001f701ee+00*482+0702031301626f626e07010313016164615a = count 512
pwrite bankdb 1024 0d0000000101fc0001fc+00*498+02010209 = count 512
fsync bankdb = ok
close bankdbjo = ok
unlink /bank.db-journal = ok
stat /bank.db = file 1536
stat /bank.db = file 1536
close bankdb = ok
tree = / dir; /bank.db file 1536 53514c69746520666f726d617420330002000101004020200000000200000003+00*11+0200000004+00*11+01+00*35+02002e63010d0000000201730001b60173+00*259+410206171d1d01577461626c657472616e736665727472616e7366657203435245415445205441424c45207472616e73666572286e756d62657220696e746567657229480106171b1b01697461626c656163636f756e746163636f756e7402435245415445205441424c45206163636f756e74286e616d6520746578742c206d6f6e657920696e7465676572290d0000000201ee0001f701ee+00*482+0702031301626f626e07010313016164615a0d0000000101fc0001fc+00*498+02010209
";

#[test]
fn databases(rt: HostRuntime) -> Result<(), Fail> {
    assert_losses(&rt, DATABASES, 2)
}

#[test]
fn sqlite_behind_a_rollback_journal(rt: HostRuntime) -> Result<(), Fail> {
    assert_losses(&rt, SQLITE, 1)
}

#[test]
fn database_journal_0(rt: HostRuntime) -> Result<(), Fail> {
    assert_part(&rt, "losses every 39 from 0", JOURNAL)
}

#[test]
fn database_journal_1(rt: HostRuntime) -> Result<(), Fail> {
    assert_part(&rt, "losses every 39 from 13", JOURNAL)
}

#[test]
fn database_journal_2(rt: HostRuntime) -> Result<(), Fail> {
    assert_part(&rt, "losses every 39 from 26", JOURNAL)
}

#[test]
fn database_journal_in_sync_mode(rt: HostRuntime) -> Result<(), Fail> {
    assert_part(&rt, "modes sync\nlosses every 97", JOURNAL)
}
