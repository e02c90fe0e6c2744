// The operands of instructions that have a sign: immediates and distances.
ghost use Rattle.std.specs.Prelude.{◌≡◌, ◌<◌, ◌%◌, ◌^◌, pos, ◌≤ℤ◌, neg_ℤ, unsigned_abs};
ghost use Rattle.std.specs.Int.{cast_unsigned, w32};
ghost use Rattle.rv_decode.specs.Fields.{sign_extended, twos_complement};
ghost use Rattle.rv_decode.specs.Operands.{immediate_of, branch_offset_of, jump_offset_of, IsImmediate, IsBranchOffset, IsJumpOffset};

use std::marker::Model;

/// The immediate of formats I and S: -2,048 to 2,047.
#[derive(Clone, Copy, Debug, PartialEq, Eq)]
pub struct Immediate {
    value: i32,
}

impl Model for Immediate {
    ghost use Rattle.std.specs.Prelude.{ℤ};
    ghost use Rattle.rv_decode.specs.Operands.{IsImmediate};

    ghost Value = { ℤ };

    ghost view = { λ a. a.value };

    ghost invariant = { λ a. IsImmediate a.value };

    ghost inverse = { λ z. record { value = z } };
}

impl Immediate {
    /// The immediate of this value; None exactly where it is not -2,048 to 2,047.
    #[inline(always)]
    pub fn new(value: i32) -> Option<Self>
        ensures { result ≡ immediate_of value }
    {
        if value >= -2048 && value <= 2047 {
            Some(Immediate { value })
        } else {
            None
        }
    }

    /// The value of a field of 12 bits, sign-extended from its highest bit.
    #[inline(always)]
    pub fn from_field(field: u32) -> Self
        requires { field < 2 ^ 12 }
        ensures { result ≡ sign_extended 12 field }
    {
        let low = field as i32;
        if low < 2048 {
            Immediate { value: low }
        } else {
            Immediate { value: low - 4096 }
        }
    }

    /// The value.
    #[inline(always)]
    pub fn get(&self) -> i32
        ensures value { result ≡ self.now }
        ensures range { IsImmediate result }
    {
        self.value
    }

    /// The value as a field of 12 bits, in two's complement.
    #[inline(always)]
    pub fn field(&self) -> u32
        ensures value { result ≡ twos_complement 12 self.now }
        ensures range { result < 2 ^ 12 }
    {
        if self.value >= 0 {
            self.value as u32
        } else {
            (self.value + 4096) as u32
        }
    }

    /// The value as a word of 32 bits, in two's complement.
    #[inline(always)]
    pub fn as_word(&self) -> u32
        ensures { result ≡ cast_unsigned w32 self.now }
    {
        self.value.cast_unsigned()
    }
}

/// The immediate of format B, the distance of a branch in bytes: -4,096 to 4,094, and even.
#[derive(Clone, Copy, Debug, PartialEq, Eq)]
pub struct BranchOffset {
    value: i32,
}

impl Model for BranchOffset {
    ghost use Rattle.std.specs.Prelude.{ℤ};
    ghost use Rattle.rv_decode.specs.Operands.{IsBranchOffset};

    ghost Value = { ℤ };

    ghost view = { λ a. a.value };

    ghost invariant = { λ a. IsBranchOffset a.value };

    ghost inverse = { λ z. record { value = z } };
}

impl BranchOffset {
    /// The distance of this many bytes; None exactly where it is odd or not -4,096 to 4,094.
    #[inline(always)]
    pub fn new(value: i32) -> Option<Self>
        ensures { result ≡ branch_offset_of value }
    {
        if value >= -4096 && value <= 4094 && value % 2 == 0 {
            Some(BranchOffset { value })
        } else {
            None
        }
    }

    /// The value of a field of 13 bits, sign-extended from its highest bit.
    #[inline(always)]
    pub fn from_field(field: u32) -> Self
        requires range { field < 2 ^ 13 }
        requires even { field % 2 ≡ 0 }
        ensures { result ≡ sign_extended 13 field }
    {
        let low = field as i32;
        if low < 4096 {
            BranchOffset { value: low }
        } else {
            BranchOffset { value: low - 8192 }
        }
    }

    /// The value.
    #[inline(always)]
    pub fn get(&self) -> i32
        ensures value { result ≡ self.now }
        ensures range { IsBranchOffset result }
    {
        self.value
    }

    /// The value as a field of 13 bits, in two's complement.
    #[inline(always)]
    pub fn field(&self) -> u32
        ensures value { result ≡ twos_complement 13 self.now }
        ensures range { result < 2 ^ 13 }
    {
        if self.value >= 0 {
            self.value as u32
        } else {
            (self.value + 8192) as u32
        }
    }

    /// The value as a word of 32 bits, in two's complement.
    #[inline(always)]
    pub fn as_word(&self) -> u32
        ensures { result ≡ cast_unsigned w32 self.now }
    {
        self.value.cast_unsigned()
    }
}

/// The immediate of format J, the distance of JAL in bytes: -1,048,576 to 1,048,574, and even.
#[derive(Clone, Copy, Debug, PartialEq, Eq)]
pub struct JumpOffset {
    value: i32,
}

impl Model for JumpOffset {
    ghost use Rattle.std.specs.Prelude.{ℤ};
    ghost use Rattle.rv_decode.specs.Operands.{IsJumpOffset};

    ghost Value = { ℤ };

    ghost view = { λ a. a.value };

    ghost invariant = { λ a. IsJumpOffset a.value };

    ghost inverse = { λ z. record { value = z } };
}

impl JumpOffset {
    /// The distance of this many bytes; None exactly where it is odd or not -1,048,576 to 1,048,574.
    #[inline(always)]
    pub fn new(value: i32) -> Option<Self>
        ensures { result ≡ jump_offset_of value }
    {
        if value >= -1_048_576 && value <= 1_048_574 && value % 2 == 0 {
            Some(JumpOffset { value })
        } else {
            None
        }
    }

    /// The value of a field of 21 bits, sign-extended from its highest bit.
    #[inline(always)]
    pub fn from_field(field: u32) -> Self
        requires range { field < 2 ^ 21 }
        requires even { field % 2 ≡ 0 }
        ensures { result ≡ sign_extended 21 field }
    {
        let low = field as i32;
        if low < 1_048_576 {
            JumpOffset { value: low }
        } else {
            JumpOffset {
                value: low - 2_097_152,
            }
        }
    }

    /// The value.
    #[inline(always)]
    pub fn get(&self) -> i32
        ensures value { result ≡ self.now }
        ensures range { IsJumpOffset result }
    {
        self.value
    }

    /// The value as a field of 21 bits, in two's complement.
    #[inline(always)]
    pub fn field(&self) -> u32
        ensures value { result ≡ twos_complement 21 self.now }
        ensures range { result < 2 ^ 21 }
    {
        if self.value >= 0 {
            self.value as u32
        } else {
            (self.value + 2097152) as u32
        }
    }

    /// The value as a word of 32 bits, in two's complement.
    #[inline(always)]
    pub fn as_word(&self) -> u32
        ensures { result ≡ cast_unsigned w32 self.now }
    {
        self.value.cast_unsigned()
    }
}
