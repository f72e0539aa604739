//! How many bytes of text an act has.

ghost use Rattle.std.specs.Prelude.{◌≡◌, ◌+◌, ◌^◌, ◌-◌, length, min};
ghost use Rattle.site_history.specs.Texts.{texts_in, texts_in_author, texts_in_command};
ghost use Rattle.site_state.specs.Weighed.{author_token};

use sessions::Token;
use site_history::{Act, Author, Command};
use trust_types::Text;

fn size(text: &Text) -> u64
    ensures { result ≡ length text.now }
{
    text.as_str().len() as u64
}

fn two_sizes(first: &Text, second: &Text) -> u64
    ensures { result ≡ min (length first.now + length second.now) (2 ^ 64 - 1) }
{
    size(first).saturating_add(size(second))
}

fn command_size(command: &Command) -> u64
    ensures { result ≡ min (texts_in_command command.now) (2 ^ 64 - 1) }
{
    match command {
        Command::Join { name, .. } | Command::Login { name, .. } => size(name),
        Command::Seed { subject } | Command::Unseed { subject } | Command::Cert { subject, .. } =>
            size(subject),
        Command::Table { .. } | Command::Logout => 0,
        Command::Diary { text } | Command::Reply { text, .. } => size(text),
        Command::Article { title, text } => two_sizes(title, text),
        Command::Project { name, text } => two_sizes(name, text),
    }
}

fn author_size(author: &Option<Author>) -> u64
    ensures { result ≡ texts_in_author author.now }
{
    match author {
        None => 0,
        Some(Author::Named(name)) => size(name),
        Some(Author::Session(name, _)) => size(name),
    }
}

/// How many bytes of text an act has. It saturates.
pub(crate) fn texts_in(act: &Act) -> u64
    ensures { result ≡ min (texts_in act.now) (2 ^ 64 - 1) }
{
    author_size(&act.author).saturating_add(command_size(&act.command))
}

/// The token of the author's session.
pub(crate) fn session_token(act: &Act) -> Option<Token>
    ensures { result ≡ author_token act.now.author }
{
    match &act.author {
        Some(Author::Session(_, token)) => Some(*token),
        Some(Author::Named(_)) => None,
        None => None,
    }
}
