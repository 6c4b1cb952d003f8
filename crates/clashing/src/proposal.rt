// A proposal: a schedule, and the reel that it is for.
ghost use Rattle.std.specs.Prelude.{ℕ, ◌<◌};
ghost use Rattle.fractions.specs.Order.{Small};
ghost use Rattle.elimination.specs.Lent.{lent};
ghost use Rattle.clashing.specs.Clash.{limit_at, Proposable};

use elimination::Reel;

// A reel and the bytes of part 2. They passed questions 4 to 8 and 21, so that removal values can be compared in 64 bits.
#[derive(Clone, Copy)]
pub struct Proposal<'a> {
    pub reel: Reel<'a>,
    pub schedule: &'a [u8],
    ghost passed: { Proposable (lent reel) schedule.now },
    ghost limits_small: { (m : ℕ) → m < reel.count → Small (limit_at schedule.now m) },
}
