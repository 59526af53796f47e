//! The options of the level scheduler.

ghost use Rattle.std.specs.Prelude.{◌≡◌, if◌then◌else◌, Some, None, map};
ghost use Rattle.sched_model.specs.Levels.{are_allowed};
ghost use Rattle.fleet_text.specs.Reading.{Reads};
ghost use Rattle.fleet_level.specs.Options.{FitOptions, level_options, option_words};

use fleet_text::{is_word, number_of};
use std::marker::Model;

/// The options of the level scheduler. Contracts see them as the model's options.
#[derive(Clone, Copy, Debug, PartialEq, Eq)]
pub struct LevelOptions {
    /// The number of flushes from which on a tree's flushes are compacted. It is at least 1.
    pub l0_trigger: u64,
    /// The greatest size of the newest run of a tree, in bytes. It is at least 1.
    pub base: u64,
    /// The limit of a run is so many times that of the run before it, and the oldest run has none.
    /// It is at least 2.
    pub ratio: u64,
}

impl Model for LevelOptions {
    ghost use Rattle.std.specs.Prelude.{IsTrue};
    ghost use Rattle.sched_model.specs.Levels as model;
    ghost use Rattle.fleet_level.specs.Options.{level_options};

    ghost Value = { model.LevelOptions };

    ghost view = { λ o. level_options o.l0_trigger o.base o.ratio };

    ghost invariant = { λ o. IsTrue (model.are_allowed
        (level_options o.l0_trigger o.base o.ratio)) };

    ghost inverse = { λ v. record { l0_trigger = v.l0_trigger; base = v.base; ratio = v.ratio } };
}

impl LevelOptions {
    /// Options with these numbers. It is None if the trigger or the base is 0, or the ratio is
    /// below 2.
    pub fn try_new(l0_trigger: u64, base: u64, ratio: u64) -> Option<LevelOptions>
        ensures { result ≡ (if are_allowed (level_options l0_trigger base ratio)
            then Some (level_options l0_trigger base ratio) else None) }
    {
        if l0_trigger == 0 || base == 0 || ratio < 2 {
            return None;
        }
        Some(LevelOptions {
            l0_trigger,
            base,
            ratio,
        })
    }

    /// The options that the words of a command line name: `run`, `level`, the trigger, the base and
    /// the ratio. It is None if these are other words, or if no options have these numbers.
    pub fn from_words(words: &[&str]) -> Option<LevelOptions>
        ensures { Reads option_words FitOptions (map (λ word. word.now) words.now) result }
    {
        if words.len() != 5
            || !is_word(words[0].as_bytes(), "run")
            || !is_word(words[1].as_bytes(), "level")
        {
            return None;
        }
        let l0_trigger = number_of(words[2].as_bytes())?;
        let base = number_of(words[3].as_bytes())?;
        let ratio = number_of(words[4].as_bytes())?;
        LevelOptions::try_new(l0_trigger, base, ratio)
    }
}
