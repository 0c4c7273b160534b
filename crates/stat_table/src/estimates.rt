//! What a value and two times say of the whole time.

ghost use Rattle.std.specs.Prelude.{◌≡◌, ◌<◌, ◌^◌};
ghost use Rattle.stat_table.specs.Estimates.{estimate_of, share_of};

/// The value that an event would have had on a counter for all the time that it was enabled, rounded down,
/// and exact where a double is not. None where it never was on one.
pub fn estimate(value: u64, enabled: u64, running: u64) -> Option<u128>
    ensures { result ≡ estimate_of value enabled running }
{
    if running == 0 {
        return None;
    }
    Some(u128::from(value) * u128::from(enabled) / u128::from(running))
}

/// The share of its enabled time for which an event was on a counter, in hundredths of a percent, rounded
/// down. None where it never was enabled.
pub fn share(enabled: u64, running: u64) -> Option<u64>
    requires { running < 2 ^ 44 }
    ensures { result ≡ share_of enabled running }
{
    if enabled == 0 {
        return None;
    }
    Some(running * 10000 / enabled)
}
