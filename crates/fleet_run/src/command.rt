//! The words of the command line.

ghost use Rattle.std.specs.Prelude.{◌≡◌, ◌∷◌, [], length, map};
ghost use Rattle.fleet_text.specs.Reading.{Reads};
ghost use Rattle.fleet_run.specs.Commands.{IsAllowed, command_words};

use fleet_level::LevelOptions;
use fleet_text::{is_word, number_of};

/// The most rounds that a script may be generated with.
const MOST_ROUNDS: u64 = 2_000;

/// What the words of the command line ask for.
#[derive(Clone, Copy, Debug, PartialEq, Eq)]
pub enum Command {
    /// Run the script that the source gives.
    Run,
    /// The same, with the level scheduler of these options.
    RunLevels(LevelOptions),
    /// Run the script that this number and this many rounds make.
    Generate { number: u64, rounds: u64 },
}

impl Command {
    /// The command that the words name: `run`, `run level` with a trigger, a base and a ratio, or
    /// `generate` with a number and a count of rounds, which is at most 2,000. It is None if these
    /// are other words. Numbers are spelt in decimal digits, without a sign and without leading
    /// zeros.
    pub fn from_words(words: &[&str]) -> Option<Command>
        ensures { Reads command_words IsAllowed (map (λ word. word.now) words.now) result }
    {
        match words {
            [word] => run_from(word),
            [word, number, rounds] => generate_from(word, number, rounds),
            [_, _, _, _, _] => levels_from(words),
            _ => None,
        }
    }
}

// The command with this one word.
fn run_from(word: &str) -> Option<Command>
    ensures { Reads command_words IsAllowed (word.now ∷ []) result }
{
    if !is_word(word.as_bytes(), "run") {
        return None;
    }
    Some(Command::Run)
}

// The command with these three words.
fn generate_from(word: &str, number: &str, rounds: &str) -> Option<Command>
    ensures { Reads command_words IsAllowed (word.now ∷ number.now ∷ rounds.now ∷ []) result }
{
    if !is_word(word.as_bytes(), "generate") {
        return None;
    }
    let number = number_of(number.as_bytes())?;
    let rounds = number_of(rounds.as_bytes())?;
    if rounds > MOST_ROUNDS {
        return None;
    }
    Some(Command::Generate { number, rounds })
}

// The command with these five words.
fn levels_from(words: &[&str]) -> Option<Command>
    requires five { length words.now ≡ 5 }
    ensures { Reads command_words IsAllowed (map (λ word. word.now) words.now) result }
{
    let options = LevelOptions::from_words(words)?;
    Some(Command::RunLevels(options))
}
