// The types of the numbers that a field or a line holds.
ghost use Rattle.std.specs.Prelude.{◌≡◌, ℕ, ◌≤◌, ◌<◌, length};
ghost use Rattle.text.specs.Text.{decimal};

// A type whose values have few digits. No `impl` over all types that go into a u32 serves: u32 itself does, and how many digits there
// are is known where the type is.
pub trait Number: Copy {
    ghost value: { Self → ℕ };

    // As many digits at most.
    ghost digits: { ℕ };

    fn to_u32(self) -> u32
        ensures value { result ≡ value self }
        ensures small { value self < 100000 }
        ensures short { length (decimal (value self)) ≤ digits };
}

impl Number for u8 {
    ghost value = { λ x. x };

    ghost digits = { 3 };

    #[tactic(auto, using(crate::proofs::Digits::decimal_short))]
    fn to_u32(self) -> u32 {
        u32::from(self)
    }
}

impl Number for u16 {
    ghost value = { λ x. x };

    ghost digits = { 5 };

    #[tactic(auto, using(crate::proofs::Digits::decimal_short))]
    fn to_u32(self) -> u32 {
        u32::from(self)
    }
}

// Any number below 100,000.
#[derive(Clone, Copy)]
pub struct FewDigits {
    pub value: u32,
    pub ghost small: { value < 100000 },
}

impl Number for FewDigits {
    ghost value = { λ x. x.value };

    ghost digits = { 5 };

    #[tactic(auto, using(crate::proofs::Digits::decimal_short))]
    fn to_u32(self) -> u32 {
        self.value
    }
}
