// Test cases of words and cards: each makes the call of its kind on its input, and compares the result with the expected answer. docs/CASES.md describes the
// inputs and answers.
#![tactic(auto)]

mod burning;
mod filtering;
mod loads;
mod other;
mod pieces;
mod word_lists;
mod words;

use stream::{CardCase, Differs, Expected};

pub fn compare(case: CardCase, input: &[u8], expected: &mut Expected) -> Result<(), Differs> {
    match case {
        CardCase::Encode => words::encode(input, expected),
        CardCase::Check => words::check(input, expected),
        CardCase::Load => loads::load(input, expected),
        CardCase::Row => loads::row(input, expected),
        CardCase::Subpage => loads::subpage(input, expected),
        CardCase::ReadWords => word_lists::read_words(input, expected),
        CardCase::Write => word_lists::write(input, expected),
        CardCase::Scrub => word_lists::scrub(input, expected),
        CardCase::Burn => burning::burn(input, expected),
        CardCase::Pieces => pieces::pieces(input, expected),
        CardCase::Filter => filtering::filter(input, expected),
        CardCase::Word => other::word(input, expected),
        CardCase::Split => other::split(input, expected),
        CardCase::Pixel => other::pixel(input, expected),
    }
}
