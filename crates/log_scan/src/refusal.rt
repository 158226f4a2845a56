// What a refusal is, whoever refuses: a number from the table of refusals, and a number that it returns, such as a place or the bytes needed.
ghost use Rattle.std.specs.Prelude.{◌≡◌, ℕ, ◌≤◌};

pub trait Refusal: Copy {
    ghost number_of: { Self → ℕ };

    ghost number_returned: { Self → ℕ };

    // Its number in the table.
    fn number(self) -> u64
        ensures { result ≡ number_of self };

    // The number that it returns.
    fn returned(self) -> u64
        ensures { result ≡ number_returned self };

    // The table ends with 11.
    ghost in_table: { (r : Self) → number_of r ≤ 11 };
}

// What is answered where nothing is refused, as the number of the bytes written.
pub trait Written: Copy {
    ghost bytes_of: { Self → ℕ };

    fn written(self) -> u64
        ensures { result ≡ bytes_of self };
}

impl Written for u64 {
    ghost bytes_of = { λ n. n };

    fn written(self) -> u64 {
        self
    }
}
