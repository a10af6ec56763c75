//! The moment, which is that of an answer.
ghost use Rattle.std.specs.Prelude.{◌≡◌, ◌+◌, ◌≤◌};
ghost use Rattle.world_rules.specs.declared.limits.TheConstants.{LAST_MOMENT};

/// A moment in milliseconds, at most `LAST_MOMENT`: so each deadline fits its type.
#[derive(Clone, Copy)]
pub struct Moment {
    pub(crate) at: u64,
    ghost fits: { at ≤ LAST_MOMENT },
}

impl Moment {
    /// The moment so many milliseconds later.
    pub(crate) fn after(self, time: u32) -> u64
        ensures { result ≡ self.at + time }
    {
        self.at + u64::from(time)
    }
}
