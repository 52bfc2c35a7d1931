// The values of options and of words that have to be there.
ghost use Rattle.std.specs.Prelude.{◌≡◌, ◌≤◌, IfSome, option_map};
ghost use Rattle.clap.specs.Words.{first_of, found_of, rows_of};
ghost use Rattle.command_line.specs.Values.{count_of, mode_or_serial, number_or};
ghost use Rattle.script_model.specs.Text.{mode_of};

use clap::ArgMatches;
use iso_model::Mode;
use script_text::number_of;

/// The text that was found under a name.
#[tactic(auto, using(crate::proofs::Getters::first_value_is))]
pub(crate) fn text_of<'a>(matches: &ArgMatches<'a>, name: &str) -> Option<&'a str>
    ensures { option_map (λ s. s.now) result ≡ first_of name.now (rows_of (found_of matches.now)) }
{
    matches.get_str(name)
}

/// The number that a word spells, or what is taken where there is no word.
pub(crate) fn number_or(otherwise: u32, word: Option<&str>) -> Option<u32>
    ensures { result ≡ number_or otherwise (option_map (λ s. s.now) word.entry) }
{
    match word {
        None => Some(otherwise),
        Some(word) => number_of(word.as_bytes()),
    }
}

fn mode_of(word: &str) -> Option<Mode>
    ensures { result ≡ mode_of word.now }
{
    if word == "serial" {
        return Some(Mode::Serial);
    }
    if word == "snapshot" {
        return Some(Mode::Snapshot);
    }
    None
}

/// The mode that a word names, serial where there is no word.
pub(crate) fn mode_or_serial(word: Option<&str>) -> Option<Mode>
    ensures { result ≡ mode_or_serial (option_map (λ s. s.now) word.entry) }
{
    match word {
        None => Some(Mode::Serial),
        Some(word) => mode_of(word),
    }
}

/// The number of rounds that a word spells.
pub(crate) fn count_of(word: &str) -> Option<u32>
    ensures value { result ≡ count_of word.now }
    ensures most { IfSome result (λ n. n ≤ 100000) }
{
    let n = number_of(word.as_bytes())?;
    if n <= 100_000 { Some(n) } else { None }
}
