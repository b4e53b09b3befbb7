// Numbers, from their digits.

ghost use Rattle.std.specs.Prelude.{◌≡◌, ◌<◌, ◌≤◌, MatchOption, None, Some, true};
ghost use Rattle.script_tokens.specs.Bytes.{is_digit, all};
ghost use Rattle.script_tokens.specs.Lexing.{is_numeral, value_from, number_of};

use crate::bytes::is_digit;

/// The greatest number of a text.
const GREATEST: u64 = 9_223_372_036_854_775_807;

fn all_digits(text: &[u8]) -> bool
    ensures { result ≡ all is_digit text.now }
{
    let mut rest = text;
    while let [byte, more @ ..] = rest {
        if !is_digit(*byte) {
            return false;
        }
        rest = more;
    }
    true
}

fn is_numeral(text: &[u8]) -> bool
    ensures { result ≡ is_numeral text.now }
{
    match text {
        [] => false,
        [b'0'] => true,
        [b'0', _, ..] => false,
        _ => all_digits(text),
    }
}

/// What digits say, up to the greatest number.
fn value(text: &[u8]) -> Option<u64>
    requires { all is_digit text.now ≡ true }
    ensures { MatchOption result (9223372036854775807 < value_from 0 text.now)
        (λ n. (n ≡ value_from 0 text.now) × (n ≤ 9223372036854775807)) }
{
    let mut n: u64 = 0;
    let mut rest = text;
    while let [byte, more @ ..] = rest {
        if n > 922_337_203_685_477_580 {
            return None;
        }
        n = n * 10 + ((*byte - b'0') as u64);
        if n > GREATEST {
            return None;
        }
        rest = more;
    }
    Some(n)
}

/// The number that a run of letters, digits and `_` is.
#[tactic(auto, using(crate::proofs::Digits::numeral_digits), unfolding(crate::specs::Lexing::number_of))]
pub fn number_of(run: &[u8]) -> Option<u64>
    ensures { MatchOption result (number_of run.now ≡ None) (λ n. number_of run.now ≡ Some n) }
{
    if is_numeral(run) { value(run) } else { None }
}
