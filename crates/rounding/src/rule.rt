// What a rounding rule is: one whole number for each amount and divisor, and two laws.
ghost use Rattle.std.specs.Prelude.{◌≡◌, ℕ};
ghost use Rattle.rounding.specs.Rule.{Close, Rising};

pub trait Rounding {
    // the number that the rule means for an amount and a divisor
    ghost answer: { Self → ℕ → ℕ → ℕ };

    fn round(&self, amount: u64, divisor: u32) -> u64
        ensures value { result ≡ answer self.now amount divisor }
        ensures none { divisor ≡ 0 → result ≡ 0 };

    // the answer times the divisor is less than one divisor from the amount
    ghost close: { (rule : Self) → Close (answer rule) };

    // for a fixed divisor the answer never falls as the amount grows
    ghost rising: { (rule : Self) → Rising (answer rule) };
}
