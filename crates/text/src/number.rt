// Numbers as words write them.
ghost use Rattle.std.specs.Prelude.{◌≡◌, ◌≤◌, ◌<◌, List, ℕ, None, Err, IfSome, Option, Result};
ghost use Rattle.text.specs.declared.problem.Argument.{Argument};
ghost use Rattle.text.specs.declared.problem.Problem.{Problem};
ghost use Rattle.text.specs.declared.problem.Problem.TheVariants.{Missing};
ghost use Rattle.text.specs.Argument.{unsigned_argument, signed_argument, unsigned_missing, signed_missing};
ghost use Rattle.text.specs.Number.{digit_of, with_digit, number, signed};

use super::problem::{Argument, Problem};

// What a byte is worth as a digit of base 16.
pub fn digit_value(byte: u8) -> Option<u8>
    ensures value { result ≡ digit_of byte }
    ensures bound { IfSome result (λ digit. digit < 16) }
{
    char::from(byte).to_digit(16).map(|digit| digit as u8)
}

// The number that has one digit more, if it is at most `most`.
fn with_digit(n: u32, byte: u8, base: u8, most: u32) -> Option<u32>
    requires { base ≤ 16 }
    ensures { result ≡ with_digit base most n byte }
{
    let digit = digit_value(byte).filter(|digit| *digit < base)?;
    n.checked_mul(u32::from(base))?
        .checked_add(u32::from(digit))
        .filter(|n| *n <= most)
}

// The number that a word writes in digits of that base, if it is at most `most`.
pub(crate) fn read_number(word: &[u8], base: u8, most: u32) -> Option<u32>
    requires { base ≤ 16 }
    ensures { result ≡ number base most word.now }
{
    if word.is_empty() {
        return None;
    }
    // No `try_fold`: its contract speaks of each step by what the closure's call did, and the check did not find this proof from that.
    let mut n = 0;
    for byte in word {
        n = with_digit(n, *byte, base, most)?;
    }
    Some(n)
}

// The number from -2147483648 to 2147483647 that a word writes.
fn read_signed(word: &[u8]) -> Option<i32>
    ensures { result ≡ signed word.now }
{
    match word {
        [b'-', digits @ ..] => { read_number(digits, 10, 2147483648).map(|n| -i64::from(n) as i32) }
        _ => read_number(word, 10, 2147483647).map(|n| n as i32),
    }
}

// A kind of number that an argument of a line may be.
pub trait Number: Sized {
    // What an argument of that name is, by the word where it stands, if there is one.
    ghost argument: { Argument → Option (List ℕ) → Result Self Problem };

    fn read(word: &[u8], name: Argument) -> Result<Self, Problem>
        ensures { result ≡ argument name (Some word.now) };

    // Without a word the argument is missing, whatever number it is to be.
    ghost missing: { (name : Argument) → argument name None ≡ Err (Missing name) };
}

// From 0 to 4294967295.
impl Number for u32 {
    ghost argument = { unsigned_argument };

    #[tactic(auto, unfolding(crate::specs::Argument::unsigned_argument))]
    fn read(word: &[u8], name: Argument) -> Result<u32, Problem> {
        read_number(word, 10, u32::MAX).ok_or(Problem::NotUnsigned(name))
    }

    ghost missing = { unsigned_missing };
}

// From -2147483648 to 2147483647.
impl Number for i32 {
    ghost argument = { signed_argument };

    #[tactic(auto, unfolding(crate::specs::Argument::signed_argument))]
    fn read(word: &[u8], name: Argument) -> Result<i32, Problem> {
        read_signed(word).ok_or(Problem::NotSigned(name))
    }

    ghost missing = { signed_missing };
}
