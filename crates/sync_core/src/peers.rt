//! Strikes of peers.

ghost use Rattle.std.specs.Prelude.{◌≡◌, ◌==◌, map};
ghost use Rattle.std.specs.List.{list_all};
ghost use Rattle.format_spec.specs.declared.limits.TheConstants.{MAX_STRIKES};
ghost use Rattle.sync_spec.specs.Core.{with_strike, pardoned_strikes};

use format_spec::MAX_STRIKES;

/// The peer has one strike more, of three at most. A peer that is not asked has none.
pub(crate) fn strike(strikes: &mut [u8], peer: u32)
    ensures { strikes.new ≡ with_strike peer strikes.old }
{
    if (peer as usize) < strikes.len() {
        strikes[peer as usize] = strikes[peer as usize].min(MAX_STRIKES as u8 - 1) + 1;
    }
}

fn all_at_fault(strikes: &[u8]) -> bool
    ensures { result ≡ list_all (λ n. n == MAX_STRIKES) strikes.now }
{
    strikes.iter().all(|n| *n == MAX_STRIKES as u8)
}

fn clear(strikes: &mut [u8])
    ensures { strikes.new ≡ map (λ _. 0) strikes.old }
{
    strikes.fill(0);
}

/// Where each peer has three strikes, none has one.
pub(crate) fn pardon(strikes: &mut [u8])
    ensures { strikes.new ≡ pardoned_strikes strikes.old }
{
    if all_at_fault(strikes) {
        clear(strikes);
    }
}
