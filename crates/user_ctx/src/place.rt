// A register that can be written, and the place of a word in its page.
ghost use Rattle.std.specs.Prelude.{◌≡◌, ◌/◌, ◌%◌, ◌<◌, IfSome, IfNone, Some};

use rv_decode::Register;
use std::marker::Model;

/// The number of a register other than x0.
#[derive(Clone, Copy)]
pub struct Destination {
    number: u8,
}

impl Model for Destination {
    ghost use Rattle.std.specs.Prelude.{ℕ};
    ghost use Rattle.user_ctx.specs.Places.{IsDestination};

    ghost Value = { ℕ };

    ghost view = { λ a. a.number };

    ghost invariant = { λ a. IsDestination a.number };

    ghost inverse = { λ n. record { number = n } };
}

impl Destination {
    /// The same register; None exactly for x0.
    pub fn of(r: Register) -> Option<Self>
        ensures some { IfSome result (λ d. d ≡ r) }
        ensures none { IfNone result (r ≡ 0) }
    {
        let number = r.number();
        if number == 0 {
            None
        } else {
            Some(Destination {
                number: number as u8,
            })
        }
    }

    /// The number, as an index into 32 registers.
    #[inline(always)]
    pub fn index(&self) -> usize
        ensures value { result ≡ self.now }
        ensures range { result < 32 }
        ensures above { 0 < result }
    {
        self.number as usize
    }
}

/// The place of a word in its page.
#[derive(Clone, Copy)]
pub struct Place {
    number: u16,
}

impl Model for Place {
    ghost use Rattle.std.specs.Prelude.{ℕ};
    ghost use Rattle.user_ctx.specs.Places.{IsPlace};

    ghost Value = { ℕ };

    ghost view = { λ a. a.number };

    ghost invariant = { λ a. IsPlace a.number };

    ghost inverse = { λ n. record { number = n } };
}

impl Place {
    /// The place of the word at an address.
    #[inline(always)]
    pub fn of(at: u32) -> Self
        ensures { result ≡ at / 4 % 1024 }
    {
        Place {
            number: (at / 4 % 1024) as u16,
        }
    }

    /// The number, as an index into 1,024 words.
    #[inline(always)]
    pub fn index(&self) -> usize
        ensures value { result ≡ self.now }
        ensures range { result < 1024 }
    {
        self.number as usize
    }
}
