//! Canonical numbers.

ghost use Rattle.std.specs.Prelude.{◌≡◌, ◌≢◌, ℕ, ℤ, nat_abs, ◌≤◌, ◌<◌, ◌^◌, min, MatchOption, true, decimal};
ghost use Rattle.std.specs.Fmt.{signed_decimal};
ghost use Rattle.std.specs.List.{list_all};
ghost use Rattle.std.specs.Option.{option_map};
ghost use Rattle.std.specs.Str.Parse.{digits_value};
ghost use Rattle.tenths.specs.Numbers.{is_digit, is_canonical, number_of, signed_of, tenths_of, tenths_from, clamped, capped};
ghost use Rattle.tenths.specs.Text.{tenths_text};
ghost use Rattle.tenths.specs.declared.value.TheConstants.{MOST_TENTHS};
ghost use Rattle.tenths.specs.declared.numbers.TheConstants.{NUMBER_CAP};

use crate::parts::Parts;
use crate::value::Tenths;

/// From here on the numbers of a text aren't told exactly.
pub const NUMBER_CAP: u64 = 1_000_000_000_000_000_000;

fn are_digits(word: &[u8]) -> bool
    ensures { result ≡ list_all is_digit word.now }
{
    word.iter().all(|b| 48 <= *b && *b <= 57)
}

/// Whether a word is a canonical number.
fn is_number(word: &[u8]) -> bool
    ensures { result ≡ is_canonical word.now }
{
    0 < word.len() && are_digits(word) && (48 < word[0] || word.len() == 1)
}

/// The number that digits write, or the cap from there on.
fn capped_value(word: &[u8]) -> u64
    requires { list_all is_digit word.now ≡ true }
    ensures { result ≡ capped (digits_value 10 word.now) }
{
    let mut value = 0;
    for b in word {
        value = (value * 10 + u64::from(*b - 48)).min(NUMBER_CAP);
    }
    value
}

/// The number that a word is, or `NUMBER_CAP` from there on; `None` where the word isn't a canonical
/// number (`0`, or digits without a leading zero).
#[tactic(auto, unfolding(crate::specs::Numbers::number_of))]
pub fn number(word: &[u8]) -> Option<u64>
    ensures exact { result ≡ option_map capped (number_of word.now) }
    // A word that is refused is no number's text, and below the cap the word is the text of the number.
    ensures told { MatchOption result ((n : ℕ) → n < 2 ^ 64 → word.now ≢ decimal n)
        (λ v. v < NUMBER_CAP → word.now ≡ decimal v) }
{
    if !is_number(word) {
        return None;
    }
    Some(capped_value(word))
}

/// The canonical signed number that a word is, within the cap.
#[tactic(auto, unfolding(crate::specs::Numbers::signed_of))]
fn canonical_signed(word: &[u8]) -> Option<i64>
    ensures { result ≡ option_map clamped (signed_of word.now) }
{
    match word {
        [] => None,
        [b'-', digits @ ..] => {
            let value = number(digits)?;
            if value == 0 {
                return None;
            }
            Some(-(value as i64))
        }
        [_, ..] => Some(number(word)? as i64),
    }
}

/// The signed number that a word is, or from there on `NUMBER_CAP` with its sign; `None` where the
/// word isn't a canonical signed number (a canonical number, or one that isn't zero after a `-`).
pub fn signed(word: &[u8]) -> Option<i64>
    ensures exact { result ≡ option_map clamped (signed_of word.now) }
    // A word that is refused is no number's text, and below the cap the word is the text of the number.
    ensures told { MatchOption result ((z : ℤ) → nat_abs z < 2 ^ 64 → word.now ≢ signed_decimal z)
        (λ z. nat_abs z < NUMBER_CAP → word.now ≡ signed_decimal z) }
{
    canonical_signed(word)
}

/// The tenths of a whole part and a digit.
#[tactic(auto, unfolding(crate::specs::Numbers::tenths_from))]
fn from_parts(whole: &[u8], digit: &[u8]) -> Option<Tenths>
    ensures { result ≡ tenths_from whole.now digit.now }
{
    if 12 < whole.len() || digit.len() != 1 {
        return None;
    }
    Tenths::new(number(whole)? * 10 + number(digit)?)
}

/// The tenths that a text is.
#[tactic(auto, unfolding(crate::specs::Numbers::tenths_of))]
fn tenths(text: &[u8]) -> Option<Tenths>
    ensures { result ≡ tenths_of text.now }
{
    let mut parts = Parts::new(text, b'.');
    let whole = parts.next()?;
    let digit = parts.next()?;
    if parts.next().is_some() {
        return None;
    }
    from_parts(whole, digit)
}

/// The tenths that a text is, as `write_tenths` writes them: a whole part of at most twelve digits
/// without leading zeros, a point and one digit; `None` for every other text.
pub fn read_tenths(text: &[u8]) -> Option<Tenths>
    ensures exact { result ≡ tenths_of text.now }
    ensures told { MatchOption result ((t : ℕ) → t ≤ MOST_TENTHS → text.now ≢ tenths_text t)
        (λ t. text.now ≡ tenths_text t) }
{
    tenths(text)
}
