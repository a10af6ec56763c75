//! The values of options, and the numbers that they spell.
ghost use Rattle.std.specs.Prelude.{◌≡◌, ◌≤◌, IfSome, option_map, true};
ghost use Rattle.clap.specs.Words.{first_of, found_of, rows_of};
ghost use Rattle.command_words.specs.Words.{number_by, number_in};
ghost use Rattle.command_words.specs.Clap.{option_row};
ghost use Rattle.command_words.specs.Ranges.{takes_usual};

use crate::table::NumberOption;
use clap::ArgMatches;
use gv_values::digits::is_plain_number;

/// The number from `least` to `most` that the text spells.
fn number_in(least: u64, most: u64, text: &str) -> Option<u64>
    ensures { result ≡ number_in least most text.now }
{
    if !is_plain_number(text.as_bytes()) {
        return None;
    }
    match text.parse::<u64>() {
        Ok(number) => {
            if least <= number && number <= most {
                Some(number)
            } else {
                None
            }
        }
        Err(_) => None,
    }
}

/// The value that the option of this name was given, if it was given one.
pub fn given<'a>(name: &str, matches: &ArgMatches<'a>) -> Option<&'a str>
    ensures { option_map (λ t. t.now) result ≡ first_of name.now (rows_of (found_of matches.now)) }
{
    matches.get_str(name)
}

/// The number of the option: the one that it was given, or else the usual one; none where there is no such number.
pub fn number_by(option: NumberOption, matches: &ArgMatches) -> Option<u64>
    requires usual { takes_usual (option_row option) ≡ true }
    ensures value { result ≡ number_by (option_row option) (λ n. first_of n (rows_of (found_of matches.now))) }
    ensures range { IfSome result (λ n. (option.least ≤ n) × (n ≤ option.most)) }
{
    match given(option.name, matches) {
        Some(text) => number_in(option.least, option.most, text),
        None => option.usual,
    }
}
