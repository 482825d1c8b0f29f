//! The power of a World goes.
ghost use Rattle.std.specs.Prelude.{◌≡◌, ◌+◌, false, true};
ghost use Rattle.world_parts.specs.Seen.{IsKept};

use crate::parts::Parts;

/// The power is lost from now on.
pub fn lose(p: &mut Parts)
    requires kept { IsKept p.old }
    ensures kept { IsKept p.new }
    ensures lost { p.new ≡ record p.old { lost = true } }
{
    p.lost = true;
}

/// The power is found off, which is one act.
pub fn lose_one(p: &mut Parts)
    requires kept { IsKept p.old }
    requires awake { p.old.lost ≡ false }
    ensures kept { IsKept p.new }
    ensures lost { p.new ≡ record p.old { acts = p.old.acts + 1; lost = true } }
{
    lose(p);
    p.acts += 1;
}
