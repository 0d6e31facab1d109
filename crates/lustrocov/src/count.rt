ghost use Rattle.std.specs.Prelude.{◌≡◌, ◌+◌, ◌≤◌, min};
ghost use Rattle.cov_base.specs.Files.{Rose};

/// One more, or the same at the greatest number.
pub(crate) fn one_more(count: u64) -> u64
    ensures exact { result ≡ min (count + 1) 0xFFFF_FFFF_FFFF_FFFF }
    ensures rose { Rose count result }
    ensures never_falls { count ≤ result }
{
    count.saturating_add(1)
}
