//! What the hub reads the time from.
ghost use Rattle.std.specs.Prelude.{◌≡◌, ℕ, ◌≤◌};

/// Reads the time in milliseconds.
pub trait Clock {
    /// Its last reading.
    ghost reading: { Self → ℕ };

    /// Reads the time, which never falls.
    fn now(&mut self) -> u64
        ensures reading { result ≡ reading self.new }
        ensures rises { reading self.old ≤ reading self.new };
}
