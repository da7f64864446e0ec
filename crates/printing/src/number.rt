// Numbers that are printed.
ghost use Rattle.std.specs.Prelude.{◌≡◌, ◌≤◌, ◌^◌, ℤ, pos, true, nat_abs, int_lt};

// A number of 64 bits, with or without a sign.
pub trait Number: Copy {
    ghost value: { Self → ℤ };

    fn is_negative(self) -> bool
        ensures { result ≡ int_lt (value self) (pos 0) };

    // The number without its sign.
    fn amount(self) -> u64
        ensures amount { result ≡ nat_abs (value self) }
        ensures bound { int_lt (value self) (pos 0) ≡ true → result ≤ 2 ^ 63 };
}

impl Number for u64 {
    ghost value = { pos };

    fn is_negative(self) -> bool {
        false
    }

    fn amount(self) -> u64 {
        self
    }
}

impl Number for i64 {
    ghost value = { λ x. x };

    fn is_negative(self) -> bool {
        self < 0
    }

    fn amount(self) -> u64 {
        self.unsigned_abs()
    }
}
