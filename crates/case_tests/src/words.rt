// The words with which lines of a case begin.
use crate::text::found;

/// The first word of a line.
#[derive(Clone, Copy)]
pub(crate) enum Word {
    Status,
    From,
    Lasting,
    Kept,
    For,
    At,
    In,
    Every,
    Step,
    Reached,
    Or,
    Shows,
    Then,
    Calls,
    Fails,
    Source,
    Sink,
    Breaks,
    Isotope,
    Words,
    Refused,
    Case,
    Zeros,
    Cut,
    Put,
    Add,
    On,
    Keep,
    Left,
}

const WORDS: [(&str, Word); 29] = [
    ("status", Word::Status),
    ("from", Word::From),
    ("lasting", Word::Lasting),
    ("kept", Word::Kept),
    ("for", Word::For),
    ("at", Word::At),
    ("in", Word::In),
    ("every", Word::Every),
    ("step", Word::Step),
    ("reached", Word::Reached),
    ("or", Word::Or),
    ("shows", Word::Shows),
    ("then", Word::Then),
    ("calls", Word::Calls),
    ("fails", Word::Fails),
    ("source", Word::Source),
    ("sink", Word::Sink),
    ("breaks", Word::Breaks),
    ("isotope", Word::Isotope),
    ("words", Word::Words),
    ("refused", Word::Refused),
    ("case", Word::Case),
    ("zeros", Word::Zeros),
    ("cut", Word::Cut),
    ("put", Word::Put),
    ("add", Word::Add),
    ("on", Word::On),
    ("keep", Word::Keep),
    ("left", Word::Left),
];

/// The word that is spelled so.
pub(crate) fn word_of(text: &str) -> Option<Word> {
    found(&WORDS, text)
}
