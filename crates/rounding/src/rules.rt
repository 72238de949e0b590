// The three rounding rules that are delivered.
ghost use Rattle.std.specs.Prelude.{◌≡◌, ℕ, ◌^◌, ◌<◌, Bool, true};
ghost use Rattle.rounding.specs.Rule.{divided, down, up, nearest};
ghost use Rattle.rounding.specs.Division.{down_close, down_rising, up_close, up_rising, nearest_close, nearest_rising};

use crate::rule::Rounding;

// The quotient, raised by one where `one_more` says so of the remainder and the divisor; 0 for
// divisor 0.
fn divided<F: Fn(u64, u64) -> bool>(amount: u64, divisor: u32, one_more: F) -> u64
    requires callable { (r d : ℕ) → r < d → d < 2 ^ 32 → F.pre one_more r d }
    requires exact { (d : ℕ) → 0 < d → F.post one_more 0 d true → ⊥ }
    ensures none { divisor ≡ 0 → result ≡ 0 }
    ensures value { (says : ℕ → ℕ → Bool) → ((r d : ℕ) (b : Bool) → F.post one_more r d b → b ≡ says r d) → result ≡ divided says amount divisor }
{
    if divisor == 0 {
        return 0;
    }
    let divisor = u64::from(divisor);
    let quotient = amount / divisor;
    if one_more(amount % divisor, divisor) {
        quotient + 1
    } else {
        quotient
    }
}

// The quotient.
#[derive(Clone, Copy, Debug)]
pub struct Down;

impl Rounding for Down {
    ghost answer = { λ _. down };

    ghost close = { λ rule. down_close };

    ghost rising = { λ rule. down_rising };

    fn round(&self, amount: u64, divisor: u32) -> u64 {
        divided(amount, divisor, |_, _| false)
    }
}

// The quotient, raised by one unless the division is exact.
#[derive(Clone, Copy, Debug)]
pub struct Up;

impl Rounding for Up {
    ghost answer = { λ _. up };

    ghost close = { λ rule. up_close };

    ghost rising = { λ rule. up_rising };

    fn round(&self, amount: u64, divisor: u32) -> u64 {
        divided(amount, divisor, |remainder, _| remainder > 0)
    }
}

// The quotient, raised by one where the remainder is half the divisor or more.
#[derive(Clone, Copy, Debug)]
pub struct Nearest;

impl Rounding for Nearest {
    ghost answer = { λ _. nearest };

    ghost close = { λ rule. nearest_close };

    ghost rising = { λ rule. nearest_rising };

    fn round(&self, amount: u64, divisor: u32) -> u64 {
        divided(
            amount,
            divisor,
            |remainder, divisor| 2 * remainder >= divisor,
        )
    }
}
