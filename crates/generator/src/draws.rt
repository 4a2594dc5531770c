//! Numbers drawn one after another.

ghost use Rattle.std.specs.Prelude.{◌≡◌, ◌<◌};
ghost use Rattle.generator.specs.Draws.{next_x as x_after_draw, drawn as drawn_below};

/// The x after a draw.
#[tactic(auto, unfolding(crate::specs::Draws::next_x))]
pub fn next_x(x: u64) -> u64
    ensures { result ≡ x_after_draw x }
{
    x.wrapping_mul(6364136223846793005)
        .wrapping_add(1442695040888963407)
}

/// What a draw gives below a number, by the x after it.
#[tactic(auto, unfolding(crate::specs::Draws::drawn))]
pub fn drawn(below: u64, x: u64) -> u64
    requires { 0 < below }
    ensures value { result ≡ drawn_below below x }
    ensures less { result < below }
{
    (x >> 33) % below
}
