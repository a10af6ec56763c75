ghost use Rattle.std.specs.Prelude.{◌≡◌};
ghost use Rattle.gv_values.specs.OneMore.{one_more};

/// The count after one more; it stands still at its last value.
pub fn one_more(count: u64) -> u64
    ensures { result ≡ one_more count }
{
    if count < u64::MAX { count + 1 } else { count }
}
