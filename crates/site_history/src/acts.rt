ghost use Rattle.std.specs.Prelude.{◌≡◌, ◌↔◌, IsTrue, IsSome, IfSome};
ghost use Rattle.site_history.specs.Acts.{may_have, has_session, is_not_named};

use crate::commands::{Author, Command};

/// A command and who gives it. Who joins or logs in has no author yet, and who logs out has a session; certificates and posts have an author;
/// seeds and tables have none, where the site's operator gives them, or a session.
#[derive(Drop)]
pub struct Act {
    pub author: Option<Author>,
    pub command: Command,
    pub ghost fits: { IsTrue (may_have command author) },
}

impl Act {
    /// The act of that author, or of nobody; `None` exactly where the command may not have it.
    pub fn of(author: Option<Author>, command: Command) -> Option<Act>
        ensures fits { IsSome result ↔ IsTrue (may_have command author) }
        ensures act { IfSome result (λ act. (act.author ≡ author) × (act.command ≡ command)) }
    {
        if may_have(&command, &author) {
            Some(Act { author, command })
        } else {
            None
        }
    }
}

fn may_have(command: &Command, author: &Option<Author>) -> bool
    ensures { result ≡ may_have command.now author.now }
{
    match command {
        Command::Join { .. } | Command::Login { .. } => author.is_none(),
        Command::Logout => has_session(author),
        Command::Seed { .. } | Command::Unseed { .. } | Command::Table { .. } => {
            is_not_named(author)
        }
        Command::Cert { .. }
        | Command::Diary { .. }
        | Command::Article { .. }
        | Command::Reply { .. }
        | Command::Project { .. } => author.is_some(),
    }
}

fn has_session(author: &Option<Author>) -> bool
    ensures { result ≡ has_session author.now }
{
    match author {
        Some(Author::Session(_, _)) => true,
        Some(Author::Named(_)) => false,
        None => false,
    }
}

fn is_not_named(author: &Option<Author>) -> bool
    ensures { result ≡ is_not_named author.now }
{
    match author {
        Some(Author::Named(_)) => false,
        Some(Author::Session(_, _)) => true,
        None => true,
    }
}
