// The operands of instructions that have no sign: registers, shifts, upper immediates, the bits of FENCE.
ghost use Rattle.std.specs.Prelude.{◌≡◌, ◌<◌, ◌*◌, ◌^◌, pos};
ghost use Rattle.rv_decode.specs.Operands.{register_of, shift_of, upper_of, fence_bits_of, IsRegister, IsShift, IsUpper, IsFenceBits};

use std::marker::Model;

/// The number of a register, x0 to x31.
#[derive(Clone, Copy, Debug, PartialEq, Eq)]
pub struct Register {
    number: u8,
}

impl Model for Register {
    ghost use Rattle.std.specs.Prelude.{ℕ};
    ghost use Rattle.rv_decode.specs.Operands.{IsRegister};

    ghost Value = { ℕ };

    ghost view = { λ a. a.number };

    ghost invariant = { λ a. IsRegister a.number };

    ghost inverse = { λ n. record { number = n } };
}

impl Register {
    /// The register of this number; None exactly where it is not 0 to 31.
    #[inline(always)]
    pub fn new(value: i32) -> Option<Self>
        ensures { result ≡ register_of value }
    {
        if value >= 0 && value < 32 {
            Some(Register {
                number: value as u8,
            })
        } else {
            None
        }
    }

    /// The register that a field of five bits names.
    #[inline(always)]
    pub fn from_field(field: u32) -> Self
        requires { IsRegister field }
        ensures { result ≡ field }
    {
        Register {
            number: field as u8,
        }
    }

    /// The number.
    #[inline(always)]
    pub fn get(&self) -> i32
        ensures { result ≡ pos self.now }
    {
        self.number as i32
    }

    /// The number, without a sign.
    #[inline(always)]
    pub fn number(&self) -> u32
        ensures value { result ≡ self.now }
        ensures range { IsRegister result }
    {
        self.number as u32
    }

    /// The number, as an index into 32 registers.
    #[inline(always)]
    pub fn index(&self) -> usize
        ensures value { result ≡ self.now }
        ensures range { IsRegister result }
    {
        self.number as usize
    }
}

/// How far a shift by an immediate goes: 0 to 31.
#[derive(Clone, Copy, Debug, PartialEq, Eq)]
pub struct Shift {
    amount: u8,
}

impl Model for Shift {
    ghost use Rattle.std.specs.Prelude.{ℕ};
    ghost use Rattle.rv_decode.specs.Operands.{IsShift};

    ghost Value = { ℕ };

    ghost view = { λ a. a.amount };

    ghost invariant = { λ a. IsShift a.amount };

    ghost inverse = { λ n. record { amount = n } };
}

impl Shift {
    /// A shift this far; None exactly where it is not 0 to 31.
    #[inline(always)]
    pub fn new(value: i32) -> Option<Self>
        ensures { result ≡ shift_of value }
    {
        if value >= 0 && value < 32 {
            Some(Shift {
                amount: value as u8,
            })
        } else {
            None
        }
    }

    /// How far a field of five bits says.
    #[inline(always)]
    pub fn from_field(field: u32) -> Self
        requires { IsShift field }
        ensures { result ≡ field }
    {
        Shift {
            amount: field as u8,
        }
    }

    /// The number.
    #[inline(always)]
    pub fn get(&self) -> i32
        ensures { result ≡ pos self.now }
    {
        self.amount as i32
    }

    /// The number, without a sign.
    #[inline(always)]
    pub fn number(&self) -> u32
        ensures value { result ≡ self.now }
        ensures range { IsShift result }
    {
        self.amount as u32
    }
}

/// The immediate of format U: bits 31:12 of the word that it stands for, a number below 2^20.
#[derive(Clone, Copy, Debug, PartialEq, Eq)]
pub struct Upper {
    bits: u32,
}

impl Model for Upper {
    ghost use Rattle.std.specs.Prelude.{ℕ};
    ghost use Rattle.rv_decode.specs.Operands.{IsUpper};

    ghost Value = { ℕ };

    ghost view = { λ a. a.bits };

    ghost invariant = { λ a. IsUpper a.bits };

    ghost inverse = { λ n. record { bits = n } };
}

impl Upper {
    /// The immediate of these bits; None exactly where the number is negative or 2^20 or more.
    #[inline(always)]
    pub fn new(value: i32) -> Option<Self>
        ensures { result ≡ upper_of value }
    {
        if value >= 0 && value < 0x10_0000 {
            Some(Upper { bits: value as u32 })
        } else {
            None
        }
    }

    /// The immediate of a field of 20 bits.
    #[inline(always)]
    pub fn from_field(field: u32) -> Self
        requires { IsUpper field }
        ensures { result ≡ field }
    {
        Upper { bits: field }
    }

    /// The number.
    #[inline(always)]
    pub fn get(&self) -> i32
        ensures { result ≡ pos self.now }
    {
        self.bits as i32
    }

    /// The number, without a sign.
    #[inline(always)]
    pub fn number(&self) -> u32
        ensures value { result ≡ self.now }
        ensures range { IsUpper result }
    {
        self.bits
    }

    /// The word that it stands for: these bits, then twelve zero bits.
    #[inline(always)]
    pub fn as_word(&self) -> u32
        ensures { result ≡ self.now * 2 ^ 12 }
    {
        self.bits * 4096
    }
}

/// What FENCE keeps of its word: bits 31:15 above bits 11:7, a number below 2^22.
#[derive(Clone, Copy, Debug, PartialEq, Eq)]
pub struct FenceBits {
    bits: u32,
}

impl Model for FenceBits {
    ghost use Rattle.std.specs.Prelude.{ℕ};
    ghost use Rattle.rv_decode.specs.Operands.{IsFenceBits};

    ghost Value = { ℕ };

    ghost view = { λ a. a.bits };

    ghost invariant = { λ a. IsFenceBits a.bits };

    ghost inverse = { λ n. record { bits = n } };
}

impl FenceBits {
    /// These bits of FENCE; None exactly where the number is negative or 2^22 or more.
    #[inline(always)]
    pub fn new(value: i32) -> Option<Self>
        ensures { result ≡ fence_bits_of value }
    {
        if value >= 0 && value < 0x40_0000 {
            Some(FenceBits { bits: value as u32 })
        } else {
            None
        }
    }

    /// The bits of FENCE in a field of 22 bits.
    #[inline(always)]
    pub fn from_field(field: u32) -> Self
        requires { IsFenceBits field }
        ensures { result ≡ field }
    {
        FenceBits { bits: field }
    }

    /// The number.
    #[inline(always)]
    pub fn get(&self) -> i32
        ensures { result ≡ pos self.now }
    {
        self.bits as i32
    }

    /// The number, without a sign.
    #[inline(always)]
    pub fn number(&self) -> u32
        ensures value { result ≡ self.now }
        ensures range { IsFenceBits result }
    {
        self.bits
    }
}
