//! The log base.
ghost use Rattle.std.specs.Prelude.{◌≡◌, ◌^◌, ◌≤◌, []};
ghost use Rattle.k_tables.specs.image_model.Reading.{base_set};
ghost use Rattle.k_plans.specs.PlansPlans.{IsPlan};
ghost use Rattle.k_plans.specs.View.{with_volume};

use crate::landings::{Batch, put_base};
use crate::plans::tables::Tables;

impl Tables {
    /// Sets the log base, the number of the log's first entry from then on, and plans its line. It takes
    /// no memory. The batch is empty, and the base is at least 1 and at most 2^63.
    pub fn set_base(&mut self, batch: &mut Batch, base: u64)
        requires empty { batch.old ≡ [] }
        requires idle { self.old.aside ≡ [] }
        requires least { 1 ≤ base }
        requires most { base ≤ 2 ^ 63 }
        ensures set { self.new ≡ with_volume (base_set base self.old.volume) self.old }
        ensures plan { IsPlan self.old self.new batch.new }
    {
        put_base(batch, &self.geometry, base);
        self.base = base;
    }
}
