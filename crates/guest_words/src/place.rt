//! Where a word stands, and what it is there.
ghost use Rattle.std.specs.Prelude.{◌≡◌};
ghost use Rattle.guest_words.specs.Words.{choice_of, begins_with_dash, is_plain, name_in, value_in};
ghost use Rattle.guest_words.specs.Views.{text_in};

/// An option.
#[derive(Clone, Copy, Debug)]
pub(crate) enum Choice {
    Slots,
    Areas,
    Table,
}

/// Where a word stands.
#[derive(Clone, Copy, Debug)]
pub(crate) enum Place {
    /// Where options may stand.
    Open,
    /// Behind an option's name, as its value.
    Value(Choice),
    /// Behind `--`.
    Ended,
}

/// The option of a name.
pub(crate) fn choice_of(name: &str) -> Option<Choice>
    ensures { result ≡ choice_of name.now }
{
    match name {
        "--slots" => Some(Choice::Slots),
        "--areas" => Some(Choice::Areas),
        "--table" => Some(Choice::Table),
        _ => None,
    }
}

pub(crate) fn begins_with_dash(word: &str) -> bool
    ensures { result ≡ begins_with_dash word.now }
{
    match word.as_bytes() {
        [first, ..] => *first == b'-',
        [] => false,
    }
}

/// Whether a word is no option: it begins with no dash, or is a dash alone.
pub(crate) fn is_plain(word: &str) -> bool
    ensures { result ≡ is_plain word.now }
{
    !begins_with_dash(word) || word == "-"
}

/// A word's text before its first `=`, and what stands behind that; the whole word where it has none.
pub(crate) fn split_word(word: &str) -> (&str, Option<&str>)
    ensures name { result.0.now ≡ name_in word.now }
    ensures value { text_in result.1 ≡ value_in word.now }
{
    match word.split_once('=') {
        Some((name, value)) => (name, Some(value)),
        None => (word, None),
    }
}
