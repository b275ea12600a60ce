//! What a turn lock may hold.
ghost use Rattle.std.specs.Prelude.{◌≡◌, ℕ};

/// A value that threads take in turns, each under its number. It keeps a book.
pub trait Booked {
    /// What a turn under a number may make of the value.
    ghost makes: { ℕ → Self → Self → Type 0 };

    /// How many lines the book has.
    ghost lines: { Self → ℕ };

    /// How many lines the book has.
    fn lines(&self) -> u64
        ensures { result ≡ lines self.now };
}
