// Signed numbers and their 32 bits (LANGUAGE 4.3): signed only at the edge and in a sum, bits everywhere else.
ghost use Rattle.std.specs.Prelude.{◌≡◌, ◌+◌, ◌%◌, ◌+ℤ◌};
ghost use Rattle.std.specs.Int.{w32};
ghost use Rattle.std.proofs.Common.{of_z, to_z};
ghost use Rattle.dynamics.specs.Signed.{held, held_sum};

// The 32 bits of x: a reading (LANGUAGE 4.9) as the store holds it.
pub fn bits_of(x: i32) -> u32
    ensures { result ≡ of_z w32 x }
{
    x.cast_unsigned()
}

// The number that the bits stand for: the answer is signed (LANGUAGE 4.20).
pub fn number_of(b: u32) -> i32
    ensures { result ≡ to_z w32 b }
{
    b.cast_signed()
}

// The bits moved up by half the range: their unsigned order is the signed order of the numbers (LANGUAGE 4.16).
pub fn raised(b: u32) -> u32
    ensures { result ≡ (b + 2147483648) % 4294967296 }
{
    b.wrapping_add(2147483648)
}

// The sum held to the range (LANGUAGE 4.16): 64 bits hold the sum of any two.
fn held_sum(a: i32, b: i32) -> i32
    ensures { result ≡ held (a +ℤ b) }
{
    let sum = i64::from(a) + i64::from(b);
    sum.clamp(i64::from(i32::MIN), i64::from(i32::MAX)) as i32
}

// Likewise of the numbers that the bits stand for, as bits.
pub fn sum_bits(a: u32, b: u32) -> u32
    ensures { result ≡ held_sum a b }
{
    bits_of(held_sum(number_of(a), number_of(b)))
}
