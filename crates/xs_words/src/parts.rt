ghost use Rattle.std.specs.Prelude.{◌≡◌, ◌<◌, ◌≤◌, ◌-◌, ◌+◌, ◌^◌, ◌==◌, true, false, length, map, string_bytes, MatchResult, OnOk};
ghost use Rattle.std.specs.List.{list_all};
ghost use Rattle.std.specs.Char.{is_ascii_digit};
ghost use Rattle.xs_words.specs.Grammar.{word, is_number, number_in, is_within, is_last_row};
ghost use Rattle.xs_words.specs.Parts.{ReadsName, ReadsBase};

use crate::fault::{Usage, WordsFault};
use std::alloc::Global;
use xs_base::limits::{LAST_ROW, LONGEST_BASE};
use xs_scene::Name;

/// The word with this number; words count from 1.
pub(crate) fn word(words: &[String], place: u32) -> &str
    requires counted { 1 ≤ place }
    requires there { place ≤ length words.now }
    ensures { result.now ≡ word (map string_bytes words.now) place }
{
    words[place as usize - 1].as_str()
}

/// Refuses a line of more or fewer words.
pub(crate) fn counted(words: &[String], count: usize) -> Result<(), Usage>
    ensures ok { OnOk result (length words.now ≡ count) }
    ensures exact { MatchResult result (λ _. (length (map string_bytes words.now) == count) ≡ true)
        (λ fault. ((length (map string_bytes words.now) == count) ≡ false) × (fault ≡ Usage.Count)) }
{
    if words.len() == count {
        Ok(())
    } else {
        Err(Usage::Count)
    }
}

fn has_only_digits(text: &str) -> bool
    ensures { result ≡ list_all is_ascii_digit text.now }
{
    text.bytes().all(|byte| byte.is_ascii_digit())
}

#[tactic(auto, unfolding(crate::specs::Grammar::is_within))]
fn has_length_of_number(text: &str) -> bool
    ensures { result ≡ is_within 1 9 (length text.now) }
{
    1 <= text.len() && text.len() <= 9
}

#[tactic(auto, unfolding(crate::specs::Grammar::is_number))]
fn is_number(text: &str) -> bool
    ensures { result ≡ is_number text.now }
{
    has_only_digits(text) && has_length_of_number(text)
}

/// The number that a word says.
#[tactic(auto, using(crate::proofs::Numbers::parse_number))]
pub(crate) fn number(text: &str, place: u32) -> Result<u32, Usage>
    ensures { MatchResult result (λ n. (is_number text.now ≡ true) × (n ≡ number_in text.now))
        (λ fault. (is_number text.now ≡ false) × (fault ≡ Usage.Number place)) }
{
    if !is_number(text) {
        return Err(Usage::Number(place));
    }
    match text.parse::<u32>() {
        Ok(n) => Ok(n),
        Err(_) => Err(Usage::Number(place)),
    }
}

/// Refuses a number outside these bounds.
#[tactic(auto, unfolding(crate::specs::Grammar::is_within))]
pub(crate) fn within(n: u32, least: u32, most: u32, place: u32) -> Result<(), Usage>
    ensures bounds { OnOk result ((least ≤ n) × (n ≤ most)) }
    ensures exact { MatchResult result (λ _. is_within least most n ≡ true)
        (λ fault. (is_within least most n ≡ false) × (fault ≡ Usage.Range place)) }
{
    if least <= n && n <= most {
        Ok(())
    } else {
        Err(Usage::Range(place))
    }
}

/// Refuses a last row that is before `from` or more than `span` rows after it.
#[tactic(auto, unfolding(crate::specs::Grammar::is_last_row))]
pub(crate) fn last_row(from: u32, span: u32, to: u32, place: u32) -> Result<(), Usage>
    requires { from + span < 2 ^ 32 }
    ensures { MatchResult result (λ _. is_last_row from span to ≡ true)
        (λ fault. (is_last_row from span to ≡ false) × (fault ≡ Usage.Range place)) }
{
    if from <= to && to <= LAST_ROW && to <= from + span {
        Ok(())
    } else {
        Err(Usage::Range(place))
    }
}

/// The name that a word is.
pub(crate) fn name(alloc: Global, text: &str, place: u32) -> Result<Name, WordsFault>
    ensures { ReadsName text.now place result }
{
    let copy = String::from_str(alloc, text)?;
    match Name::new(copy) {
        Some(name) => Ok(name),
        None => Err(WordsFault::Usage(Usage::Name(place))),
    }
}

/// The name that frames begin with.
#[tactic(auto, unfolding(crate::specs::Grammar::is_base))]
pub(crate) fn base(alloc: Global, text: &str, place: u32) -> Result<Name, WordsFault>
    ensures { ReadsBase text.now place result }
{
    let name = name(alloc, text, place)?;
    if text.len() <= LONGEST_BASE {
        Ok(name)
    } else {
        Err(WordsFault::Usage(Usage::Name(place)))
    }
}
