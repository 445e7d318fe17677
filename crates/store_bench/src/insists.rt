//! What a store under test insists on.
ghost use Rattle.std.specs.Prelude.{◌≡◌, true};

/// The handle of a test, by which it goes on only where what is insisted on is so.
pub trait Insists {
    /// Returns only where it is so. The text says what is insisted on.
    fn insist(&self, so: bool, what: &str)
        ensures { so ≡ true };
}
