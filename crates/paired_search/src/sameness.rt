//! What is known to be the same.

ghost use Rattle.std.specs.Prelude.{◌≡◌, ℕ, Bool};

/// Names of which some are known to be the same, as by a `View`. Contracts see the relation.
pub trait Sameness {
    /// Whether two names are the same.
    ghost are_same: { Self → ℕ → ℕ → Bool };

    /// Whether two names are the same.
    fn same(&self, m: u32, n: u32) -> bool
        ensures { result ≡ are_same self.now m n };
}
