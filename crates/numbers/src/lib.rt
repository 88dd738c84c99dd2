// Signed and unsigned numbers as document 01 reads them: the only functions that compute with signed numbers.
#![tactic(auto)]

ghost use Rattle.std.specs.Prelude.{◌≡◌};
ghost use Rattle.numbers.specs.Progress.{negative, position, mark, signed};
ghost use Rattle.numbers.specs.Fields.{is_nat, within, nat_of};

pub fn is_negative(p: i32) -> bool
    ensures { result ≡ negative p }
{
    p < 0
}

// Progress, or -progress-1 where progress is negative. The sum comes first, so that the least number too is read.
pub fn position_of(p: i32) -> u32
    ensures { result ≡ position p }
{
    if p < 0 { -(p + 1) as u32 } else { p as u32 }
}

// The mark of a position: 0 becomes -1, so that no mark looks like a position. A mark stays as it is.
pub fn mark_of(p: i32) -> i32
    ensures { result ≡ mark p }
{
    if p < 0 { p } else { -p - 1 }
}

// The number, where it is not negative, and else 0.
pub fn natural(p: i32) -> u32
    ensures { result ≡ nat_of p }
{
    u32::try_from(p).unwrap_or(0)
}

pub fn is_number(p: i32, n: u32) -> bool
    ensures { result ≡ is_nat p n }
{
    u32::try_from(p) == Ok(n)
}

pub fn in_range(p: i32, low: u32, high: u32) -> bool
    ensures { result ≡ within p low high }
{
    u32::try_from(p).is_ok_and(|n| (low..=high).contains(&n))
}

// The number as a progress. What is past the largest progress becomes the largest.
pub fn to_signed(n: u32) -> i32
    ensures { result ≡ signed n }
{
    i32::try_from(n).unwrap_or(i32::MAX)
}
