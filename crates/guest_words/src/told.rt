//! What the words tell so far.
ghost use Rattle.std.specs.Prelude.{◌≡◌, IfSome, IfNone, OnSome, Some, length, true, false};
ghost use Rattle.guest_script.specs.Words.{texts};
ghost use Rattle.guest_words.specs.Words.{nothing, plain_word, is_cpus, run_of, KeepsLimits};
ghost use Rattle.guest_words.specs.Steps.{told, standing, told_after, value_of, option_of, next_of, names_of};
ghost use Rattle.guest_words.specs.Views.{named, seen, text_in};
ghost use Rattle.guest_words.specs.declared.place.Place.TheVariants.{Open as AtOpen};

use crate::mode::Mode;
use crate::numbers::{read_areas, read_slots};
use crate::place::{Choice, Place, begins_with_dash, choice_of, is_plain, split_word};
use crate::words::{MAX_SCRIPTS, Names};
use arrayvec::ArrayVec;

/// The most plain words: an order, a map and the scripts.
const MAX_PLAIN: usize = MAX_SCRIPTS + 2;

/// What the words tell so far, and where the next one stands.
#[derive(Debug, Drop)]
pub(crate) struct SoFar<'a> {
    place: Place,
    plain: ArrayVec<&'a str, MAX_PLAIN>,
    slots: Option<&'a str>,
    areas: Option<&'a str>,
    table: Option<&'a str>,
}

impl<'a> SoFar<'a> {
    /// Before the first word.
    pub(crate) fn new() -> Self
        ensures { standing (Some result) ≡ Some (AtOpen, nothing) }
    {
        SoFar {
            place: Place::Open,
            plain: ArrayVec::new(),
            slots: None,
            areas: None,
            table: None,
        }
    }

    /// With the next word. None where it may not stand there, or tells too much.
    #[tactic(auto, unfolding(crate::specs::Words::part_of))]
    pub(crate) fn with_word(self, word: &'a str) -> Option<Self>
        ensures { standing result ≡ next_of self.entry.place (told self.entry) word.now }
    {
        match self.place {
            Place::Open => self.with_open(word),
            Place::Value(choice) => self.with_value(choice, word),
            Place::Ended => self.with_plain(Place::Ended, word),
        }
    }

    /// With a word where options may stand.
    #[tactic(auto, unfolding(crate::specs::Words::part_of))]
    fn with_open(self, word: &'a str) -> Option<Self>
        ensures { standing result ≡ next_of AtOpen (told self.entry) word.now }
    {
        if word == "--" {
            return Some(self.at(Place::Ended));
        }
        if is_plain(word) {
            return self.with_plain(Place::Open, word);
        }
        self.with_option(word)
    }

    /// With an option, and its value where that stands behind a `=`. None where the word is no option.
    fn with_option(self, word: &'a str) -> Option<Self>
        ensures { standing result ≡ option_of (told self.entry) word.now }
    {
        let (name, value) = split_word(word);
        let choice = choice_of(name)?;
        match value {
            None => Some(self.at(Place::Value(choice))),
            Some(value) => self.with_value(choice, value),
        }
    }

    /// The same, with the next word at another place.
    fn at(self, place: Place) -> Self
        ensures { standing (Some result) ≡ told_after (told self.entry) (place, nothing) }
    {
        SoFar { place, ..self }
    }

    /// With a plain word, and the next one at a place. None where there are as many as may be.
    fn with_plain(mut self, place: Place, word: &'a str) -> Option<Self>
        ensures { standing result ≡ told_after (told self.entry) (place, plain_word word.now) }
    {
        if self.plain.is_full() {
            return None;
        }
        self.plain.push(word);
        self.place = place;
        Some(self)
    }

    /// With the value of an option. None where it begins with a dash, or the option has one already.
    fn with_value(self, choice: Choice, value: &'a str) -> Option<Self>
        ensures { standing result ≡ value_of choice (told self.entry) value.now }
    {
        if begins_with_dash(value) {
            return None;
        }
        match (choice, self.slots, self.areas, self.table) {
            (Choice::Slots, None, _, _) => Some(SoFar {
                place: Place::Open,
                slots: Some(value),
                ..self
            }),
            (Choice::Areas, _, None, _) => Some(SoFar {
                place: Place::Open,
                areas: Some(value),
                ..self
            }),
            (Choice::Table, _, _, None) => Some(SoFar {
                place: Place::Open,
                table: Some(value),
                ..self
            }),
            _ => None,
        }
    }

    /// What the words name. None where they end too early, or what they tell isn't of a run.
    pub(crate) fn names(&self, mode: Mode) -> Option<Names<'a>>
        ensures named { named result ≡ names_of mode self.now.place (told self.now) }
        ensures limits { IfSome result (λ names. KeepsLimits (seen names)) }
    {
        if let Place::Value(_) = self.place {
            return None;
        }
        match (mode, self.plain.as_slice()) {
            (Mode::Turns, []) => None,
            (Mode::Turns, [order, files @ ..]) => self.names_of(Some(*order), files),
            (Mode::Threads, files) => self.names_of(None, files),
        }
    }

    /// What a map and scripts name, with the options. None where these aren't a map and 1 to 64 scripts, or the options aren't
    /// those of a run.
    fn names_of(&self, order: Option<&'a str>, files: &[&'a str]) -> Option<Names<'a>>
        ensures named { named result
            ≡ run_of (text_in order.entry) (texts files.now) (told self.now) }
        ensures limits { IfSome result (λ names. KeepsLimits (seen names)) }
    {
        let [map, scripts @ ..] = files else {
            return None;
        };
        let scripts = scripts_in(scripts)?;
        let slots = read_slots(self.slots)?;
        let areas = read_areas(self.areas, scripts.len() as u32)?;
        Some(Names {
            order,
            slots,
            areas,
            table: self.table,
            map: *map,
            scripts,
        })
    }
}

/// The scripts' names, where they are 1 to 64.
fn scripts_in<'a>(names: &[&'a str]) -> Option<ArrayVec<&'a str, MAX_SCRIPTS>>
    ensures some { IfSome result (λ scripts. texts scripts.items ≡ texts names.now) }
    ensures cpus { OnSome result (is_cpus (length names.now) ≡ true) }
    ensures none { IfNone result (is_cpus (length names.now) ≡ false) }
{
    if names.is_empty() {
        return None;
    }
    let mut scripts = ArrayVec::new();
    scripts.try_extend_from_slice(names).ok()?;
    Some(scripts)
}
