// What a refusal is reported by.
ghost use Rattle.std.specs.Prelude.{◌≡◌, ℕ};

// A fault that is reported as two numbers: which fault it is, and where it was met.
pub trait Refusal {
    ghost number_of: { Self → ℕ };

    ghost place_of: { Self → ℕ };

    // The number of the fault in the table of refusals.
    fn number(self) -> u8
        ensures { result ≡ number_of self };

    // Where the fault was met, in the unit that belongs to its number.
    fn place(self) -> usize
        ensures { result ≡ place_of self };
}
