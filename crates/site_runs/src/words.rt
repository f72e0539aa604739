//! What the words of a command line ask of a site.

ghost use Rattle.std.specs.Prelude.{◌≡◌, ◌∷◌, [], map, Some, None, IfOk, MatchOption, IsTrue, is_some};
ghost use Rattle.site_runs.specs.Words.{drill_of, file_of, is_script, AsksFor};

use serve_words::ServePlan;
use std::alloc::Global;
use text_lines::number;
use trust_types::{NoMemory, Text};

/// What the program needs for its words, before it runs.
#[derive(Drop)]
pub enum Wants {
    /// Nothing but its input and output.
    Run,
    /// The file in which the rows of a site are kept.
    RunOn(Text),
    /// What a server works by.
    Serve(ServePlan),
}

/// The file that the words `script --db FILE` name; `None` for other words, and where FILE is empty.
fn file_of<'w>(words: &[&'w str]) -> Option<&'w str>
    ensures { MatchOption result (file_of (map (λ word. word.now) words.now) ≡ None) (λ file. file_of (map (λ word. word.now) words.now) ≡ Some file.now) }
{
    match words {
        [command, option, file] if is_script_on(command, option, file) => Some(file),
        _ => None,
    }
}

fn is_script_on(command: &str, option: &str, file: &str) -> bool
    ensures { result ≡ is_some (file_of (command.now ∷ option.now ∷ file.now ∷ [])) }
{
    command == "script" && option == "--db" && !file.is_empty()
}

/// Whether the words ask for a script to be played: `script`, or `script --db FILE`.
pub(crate) fn is_script(words: &[&str]) -> bool
    ensures { result ≡ is_script (map (λ word. word.now) words.now) }
{
    match words {
        [command] => *command == "script",
        [command, option, file] => is_script_on(command, option, file),
        _ => false,
    }
}

/// The number of the words `drill N`; `None` for other words.
pub(crate) fn drill_of(words: &[&str]) -> Option<u32>
    ensures { result ≡ drill_of (map (λ word. word.now) words.now) }
{
    match words {
        [command, word] => number_behind(command, word),
        _ => None,
    }
}

/// The number of a word behind `drill`.
fn number_behind(command: &str, word: &str) -> Option<u32>
    ensures { result ≡ drill_of (command.now ∷ word.now ∷ []) }
{
    if command == "drill" {
        number(word.as_bytes())
    } else {
        None
    }
}

impl Wants {
    /// What the program needs for these words: a plan exactly where they are `serve` and give one ([`ServePlan::of_words`]), a file exactly for
    /// `script --db FILE` with a FILE that isn't empty.
    ///
    /// # Errors
    /// [`NoMemory`] where there isn't enough for the plan or for the file's name.
    pub fn of_words(alloc: Global, words: &[&str]) -> Result<Wants, NoMemory>
        ensures { IfOk result (AsksFor (map (λ word. word.now) words.now)) }
    {
        if let Some(file) = file_of(words) {
            return Ok(Wants::RunOn(Text::of(alloc, file)?));
        }
        match ServePlan::of_words(alloc, words)? {
            Some(plan) => Ok(Wants::Serve(plan)),
            None => Ok(Wants::Run),
        }
    }
}
