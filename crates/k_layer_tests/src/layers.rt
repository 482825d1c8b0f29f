//! A full batch, the plan of a write in place, and many fences.
ghost use Rattle.std.specs.Prelude.{◌≡◌, ◌*◌, ◌≤◌, length, IfOk};
ghost use Rattle.k_map_tests.specs.pm_model.Cells.{AllHome, AllSingle};

use data_route::{WritePlan, plan_write};
use k_check::{Batch, BatchFull};
use pm_lines::{Pm, Power};
use posix_types::Mode;
use std::alloc::{AllocError, Global};
use std::test::Fail;

// Whether a batch takes 128 lines, and answers that it is full to one more.
fn is_full_behind_128(batch: &mut Batch) -> bool {
    for line in 0..128 {
        if batch.put(line, [0; 64]).is_err() {
            return false;
        }
    }
    match batch.put(128, [0; 64]) {
        Ok(()) => false,
        Err(full) => full.count == 128,
    }
}

// The same of a fresh batch.
fn is_full(alloc: Global) -> Result<bool, AllocError> {
    let mut batch = Batch::new(alloc)?;
    Ok(is_full_behind_128(&mut batch))
}

// Whether that is told so.
fn is_told(alloc: Global) -> Result<bool, AllocError> {
    let full = BatchFull { count: 128 };
    let text = format!(in alloc; "{full}")?;
    Ok(text.as_str() == "the batch is full at 128 lines")
}

#[test]
fn batch_is_full_at_129_lines(rt: HostRuntime) -> Result<(), Fail> {
    assert!(rt; is_full(rt.alloc())? && is_told(rt.alloc())?);
    Ok(())
}

// Whether a write of `len` bytes from `offset` on, to a file of `size` bytes, has this plan. The numbers are small.
fn is_planned(mode: Mode, size: u64, offset: u64, len: u64, plan: &WritePlan) -> bool {
    size < 65536 && offset < 65536 && len < 65536 && plan_write(mode, size, offset, len) == *plan
}

// A plan that cleans no tail.
const fn plan(
    in_place: Option<(u64, u64)>,
    staged: Option<(u32, u32)>,
    new_size: u64,
) -> WritePlan {
    WritePlan {
        clean_tail: false,
        in_place,
        staged,
        new_size,
    }
}

// Two bytes over a border, in both modes; a write over the end of a file of 5,000 bytes, and one behind it.
fn are_planned() -> bool {
    let behind_the_end = WritePlan {
        clean_tail: true,
        in_place: None,
        staged: Some((2, 1)),
        new_size: 9004,
    };
    is_planned(Mode::Strict, 8192, 4095, 2, &plan(None, Some((0, 2)), 8192))
        && is_planned(
            Mode::Sync,
            8192,
            4095,
            2,
            &plan(Some((4095, 4097)), None, 8192),
        )
        && is_planned(
            Mode::Sync,
            5000,
            4090,
            1000,
            &plan(Some((4090, 4096)), Some((1, 1)), 5090),
        )
        && is_planned(Mode::Sync, 5000, 9000, 4, &behind_the_end)
}

#[test]
fn what_a_write_stages_and_writes_in_place(rt: HostRuntime) {
    assert!(rt; are_planned());
}

// A device of zeros.
fn device(alloc: Global, blocks: usize) -> Result<Pm, AllocError>
    requires { blocks ≤ 16384 }
    ensures size { IfOk result (λ pm. length pm ≡ 512 * blocks) }
    ensures single { IfOk result AllSingle }
{
    let image = vec![in alloc; 0u8; 4096 * blocks]?;
    Pm::from_image(alloc, &image)
}

// So many fences, each behind a flush.
fn fences(pm: &mut Pm, power: &mut Power, count: u32)
    requires size { 512 ≤ length pm.old }
    requires home { AllHome pm.old }
{
    for _ in 0..count {
        pm.flush(power, 1);
        pm.fence(power);
    }
}

// Whether the power of 200,000 steps is gone behind them.
fn fences_take_steps(alloc: Global) -> Result<bool, AllocError> {
    let mut pm = device(alloc, 16384)?;
    let mut power = Power::after(200_000);
    fences(&mut pm, &mut power, 100_000);
    Ok(!power.on())
}

// A fence that looked at each word of this device would take minutes.
#[test]
fn many_fences_of_a_large_device(rt: HostRuntime) -> Result<(), Fail> {
    assert!(rt; fences_take_steps(rt.alloc())?);
    Ok(())
}
