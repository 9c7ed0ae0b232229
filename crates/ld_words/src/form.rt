//! The forms that the words of a call may have.
#![tactic(auto, unfolding(crate::specs::Forms::form_in, crate::specs::Verbs::are_taken), using(crate::proofs::Untaken::untaken_form))]

ghost use Rattle.std.specs.Prelude.{◌≡◌, ◌≤◌, true, IfOk, IfSome, option_map};
ghost use Rattle.std.specs.List.{list_all};
ghost use Rattle.std.specs.Str.{all_ascii_digits};
ghost use Rattle.ld_words.specs.FormViews.{form_view};
ghost use Rattle.ld_words.specs.Forms.{form_in, form_of_plain, gen_words, number_word, only_word};
ghost use Rattle.ld_words.specs.Verbs.{are_taken as taken};
ghost use Rattle.ld_words.specs.Words.{words_of, is_plain_word as plain_word};

use crate::parse::are_taken;
use ld_base::NoMemory;
use std::alloc::Global;

/// What a call does, with what its words name for it.
#[derive(Clone, Copy)]
pub enum Form<'a> {
    /// Publishes the units of these folders and answers the lines of the input.
    Replay(&'a [String]),
    /// Reads the folder and prints how many rules and leaves its unit has.
    Check(&'a str),
    /// Reads the folder and prints the canonical documents of its unit.
    Canon(&'a str),
    /// Reads the folder and prints a ranking of its unit's rules.
    Rank(&'a str),
    /// Answers the lines of the input as `replay` does, and keeps them in a journal.
    Keep(&'a [String]),
    /// Answers the lines that the number chooses for so many persons, and prints what the replies
    /// sum up to.
    Gen { number: u32, persons: u8 },
}

/// The form of the words behind the program's name, or `None` where they have none. `check u1` has
/// the form that reads the folder `u1`. No word of a form is empty or begins with `-`, so `clap`
/// takes none for a flag. (docs/COMMANDS.md, "Words")
///
/// # Errors
/// `NoMemory` where memory runs out for `clap`; it says nothing of the words.
pub fn form_of(alloc: Global, words: &[String]) -> Result<Option<Form<'_>>, NoMemory>
    ensures { IfOk result (λ form. option_map form_view form ≡ form_in (words_of words.now)) }
{
    if !are_plain(words) {
        return Ok(None);
    }
    if !are_taken(alloc, words)? {
        return Ok(None);
    }
    Ok(form_of_taken(words))
}

/// Whether each word is plain.
fn are_plain(words: &[String]) -> bool
    ensures { result ≡ list_all plain_word (words_of words.now) }
{
    for word in words {
        if !is_plain(word.as_str()) {
            return false;
        }
    }
    true
}

/// Whether the word is not empty and does not begin with `-`.
fn is_plain(word: &str) -> bool
    ensures { result ≡ plain_word word.now }
{
    match word.as_bytes().first() {
        Some(b) => *b != b'-',
        None => false,
    }
}

/// The form of a verb with as many words behind it as it may have.
fn form_of_taken(words: &[String]) -> Option<Form<'_>>
    requires { taken (words_of words.now) ≡ true }
    ensures { option_map form_view result ≡ form_of_plain (words_of words.now) }
{
    let [verb, rest @ ..] = words else {
        return None;
    };
    match verb.as_str() {
        "replay" => Some(Form::Replay(rest)),
        "check" => Some(Form::Check(only_word(rest)?)),
        "canon" => Some(Form::Canon(only_word(rest)?)),
        "rank" => Some(Form::Rank(only_word(rest)?)),
        "keep" => Some(Form::Keep(rest)),
        "gen" => gen_form(rest),
        _ => None,
    }
}

/// The word, where there is just one.
fn only_word(words: &[String]) -> Option<&str>
    ensures { option_map (λ word. word.now) result ≡ only_word (words_of words.now) }
{
    match words {
        [word] => Some(word.as_str()),
        _ => None,
    }
}

/// The form of the generator, where there are two words and each is a number that it takes.
fn gen_form(words: &[String]) -> Option<Form<'_>>
    ensures { option_map form_view result ≡ gen_words (words_of words.now) }
{
    let [number, persons] = words else {
        return None;
    };
    let number = number_of(number.as_str(), 10, 0, u32::MAX)?;
    let persons = number_of(persons.as_str(), 3, 1, PERSONS_MOST)?;
    Some(Form::Gen {
        number,
        persons: persons as u8,
    })
}

/// The number that the word writes in 1 to `digits` decimal digits, if it lies between the two.
fn number_of(word: &str, digits: usize, least: u32, most: u32) -> Option<u32>
    ensures value { result ≡ number_word digits least most word.now }
    ensures within { IfSome result (λ number. number ≤ most) }
{
    if word.is_empty() || word.len() > digits || !are_digits(word.as_bytes()) {
        return None;
    }
    let Ok(number) = word.parse::<u32>() else {
        return None;
    };
    if number < least || number > most {
        return None;
    }
    Some(number)
}

/// Whether each byte is a decimal digit.
fn are_digits(text: &[u8]) -> bool
    ensures { result ≡ all_ascii_digits text.now }
{
    for byte in text {
        if !byte.is_ascii_digit() {
            return false;
        }
    }
    true
}

/// The most persons that the generator has.
const PERSONS_MOST: u32 = 200;
