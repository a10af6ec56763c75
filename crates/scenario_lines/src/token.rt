ghost use Rattle.std.specs.Prelude.{◌≡◌, ◌-◌, ◌^◌, IsTrue, pos, neg_ℤ, min};
ghost use Rattle.std.specs.List.{list_all};
ghost use Rattle.std.specs.Option.{option_copied};
ghost use Rattle.std.specs.Str.Parse.{digits_value};
ghost use Rattle.gv_values.specs.Name.{is_digit};
ghost use Rattle.gv_values.specs.Digits.{is_plain_number};
ghost use Rattle.scenario_grammar.specs.Token.{begins_number, is_integer, known_in, number_token, loose_token, token_in, token_of};
ghost use Rattle.scenario_lines.specs.Numbers.{integer_token, minus_digits};

use gv_values::Name;
use gv_values::digits::is_plain_number;
use scenario_grammar::Token;
use scenario_keywords::{find_keyword, word_profile};

/// What a word is in a text of this profile. A fixed word of a later profile is unknown.
pub fn read_token(profile: u8, word: &[u8]) -> Token
    ensures { result ≡ token_in profile word.now }
{
    known_in(profile, any_token(word))
}

fn known_in(profile: u8, token: Token) -> Token
    ensures { result ≡ known_in profile token }
{
    match token {
        Token::Fixed(word) => {
            if word_profile(word) <= profile {
                Token::Fixed(word)
            } else {
                Token::Unknown
            }
        }
        token => token,
    }
}

/// What a word is in the profile that has all fixed words.
#[tactic(auto, unfolding(scenario_grammar::specs::Token::token_of))]
fn any_token(word: &[u8]) -> Token
    ensures { result ≡ token_of word.now }
{
    match find_keyword(word) {
        Some(keyword) => Token::Fixed(keyword),
        None => read_loose(word),
    }
}

/// What a word is that is no fixed word.
fn read_loose(word: &[u8]) -> Token
    ensures { result ≡ loose_token word.now }
{
    match Name::new(word) {
        Some(name) => Token::Name(name),
        None => {
            if begins_as_number(word) {
                read_number(word)
            } else {
                Token::Unknown
            }
        }
    }
}

fn begins_as_number(word: &[u8]) -> bool
    ensures { result ≡ begins_number word.now }
{
    match word {
        [] => false,
        [b] => b.is_ascii_digit(),
        [b, _, ..] => b.is_ascii_digit() || *b == b'-',
    }
}

/// The token of a word that begins as a number does.
fn read_number(word: &[u8]) -> Token
    ensures { result ≡ number_token word.now }
{
    if !is_whole(word) {
        return Token::Misspelled;
    }
    match without_minus(word) {
        Some(digits) => negative(magnitude(digits)),
        None => positive(magnitude(word)),
    }
}

fn without_minus(word: &[u8]) -> Option<&[u8]>
    ensures { option_copied result ≡ minus_digits word.now }
{
    match word {
        [b'-', digits @ ..] => Some(digits),
        _ => None,
    }
}

fn is_whole(word: &[u8]) -> bool
    ensures { result ≡ is_integer word.now }
{
    match word {
        [] => false,
        [b'-', rest @ ..] => is_plain_number(rest) && !matches!(rest, [b'0', ..]),
        _ => is_plain_number(word),
    }
}

/// The number that digits write, or the greatest of 64 bits where it is more.
fn magnitude(digits: &[u8]) -> u64
    ensures { IsTrue (list_all is_digit digits.now) → result ≡ min (digits_value 10 digits.now) (2 ^ 64 - 1) }
{
    let mut value = 0u64;
    for b in digits {
        let digit = u64::from(b.saturating_sub(b'0'));
        value = value.saturating_mul(10).saturating_add(digit);
    }
    value
}

fn positive(magnitude: u64) -> Token
    ensures { result ≡ integer_token (pos magnitude) }
{
    if magnitude < 1 << 63 {
        Token::Number(magnitude as i64)
    } else {
        Token::Oversized
    }
}

fn negative(magnitude: u64) -> Token
    ensures { result ≡ integer_token (neg_ℤ (pos magnitude)) }
{
    if magnitude < 1 << 63 {
        Token::Number(-(magnitude as i64))
    } else if magnitude == 1 << 63 {
        Token::Number(i64::MIN)
    } else {
        Token::Oversized
    }
}
