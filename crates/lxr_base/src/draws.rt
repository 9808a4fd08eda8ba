//! Numbers that only a seed determines: those of a generated script, and the choices of a replayed schedule.
//!
//! The generator is a linear congruential one of 64 bits, of which a draw gives the upper 31. Its state is a number of the
//! caller.
ghost use Rattle.std.specs.Prelude.{◌≡◌, ◌<◌, ◌^◌};
ghost use Rattle.lxr_base.specs.Draws.{draw as drawn, step};

/// Steps the generator, and gives the number that is drawn then.
#[inline(always)]
#[tactic(auto, using(crate::proofs::Steps::step_wraps), unfolding(crate::specs::Draws::draw))]
pub fn draw(x: &mut u64) -> u32
    ensures state { x.new ≡ step x.old }
    ensures drawn { result ≡ drawn x.new }
{
    *x = x
        .wrapping_mul(6_364_136_223_846_793_005)
        .wrapping_add(1_442_695_040_888_963_407);
    (*x >> 33) as u32
}
