//! The acts that requests ask for.

ghost use Rattle.std.specs.Prelude.{◌≡◌, IfOk, MatchOption, None, Some, option_map};
ghost use Rattle.exchanges.specs.Asked.{IsActOf, author_by, author_of, command_of, fixed_status, login_under, proof_with, secret_with};
ghost use Rattle.site_history.specs.declared.commands.Command.TheVariants as command;

use http_requests::{Request, Route};
use sessions::{Token, secret_of};
use site_history::{Act, Author, Command};
use std::alloc::Global;
use trust_types::{Caps, Level, Name, NoMemory, Secret, Text};

/// What is kept of a password.
fn secret_with(word: &Text, password: &Text) -> Secret
    ensures { result ≡ secret_with word.now password.now }
{
    match Name::read(word.as_str().as_bytes()) {
        Some(name) => secret_of(&name, password.as_str()),
        None => Secret::Absent,
    }
}

/// How a password is proved.
fn proof_with(word: &Text, password: &Text) -> [u8; 32]
    ensures { result ≡ proof_with word.now password.now }
{
    match secret_with(word, password) {
        Secret::Digest(digest) => digest,
        Secret::Absent => [0; 32],
    }
}

fn join(alloc: Global, name: &Text, password: &Text) -> Result<Option<Command>, NoMemory>
    ensures { IfOk result (λ found. found ≡ Some (command.Join name.now (secret_with name.now password.now))) }
{
    let secret = secret_with(name, password);
    let name = name.copy(alloc)?;
    Ok(Some(Command::Join { name, secret }))
}

fn login(
    alloc: Global,
    name: &Text,
    password: &Text,
    token: &Option<Token>,
) -> Result<Option<Command>, NoMemory>
    ensures { IfOk result (λ found. found ≡ login_under name.now password.now token.now) }
{
    match token {
        Some(token) => {
            let proof = proof_with(name, password);
            let name = name.copy(alloc)?;
            let token = *token;
            Ok(Some(Command::Login { name, proof, token }))
        }
        None => Ok(None),
    }
}

fn cert(alloc: Global, subject: &Text, level: Level) -> Result<Option<Command>, NoMemory>
    ensures { IfOk result (λ found. found ≡ Some (command.Cert subject.now level)) }
{
    let subject = subject.copy(alloc)?;
    Ok(Some(Command::Cert { subject, level }))
}

fn diary(alloc: Global, text: &Text) -> Result<Option<Command>, NoMemory>
    ensures { IfOk result (λ found. found ≡ Some (command.Diary text.now)) }
{
    let text = text.copy(alloc)?;
    Ok(Some(Command::Diary { text }))
}

fn article(alloc: Global, title: &Text, text: &Text) -> Result<Option<Command>, NoMemory>
    ensures { IfOk result (λ found. found ≡ Some (command.Article title.now text.now)) }
{
    let title = title.copy(alloc)?;
    let text = text.copy(alloc)?;
    Ok(Some(Command::Article { title, text }))
}

fn reply(alloc: Global, article: u32, text: &Text) -> Result<Option<Command>, NoMemory>
    ensures { IfOk result (λ found. found ≡ Some (command.Reply article text.now)) }
{
    let text = text.copy(alloc)?;
    Ok(Some(Command::Reply { article, text }))
}

fn project(alloc: Global, name: &Text, text: &Text) -> Result<Option<Command>, NoMemory>
    ensures { IfOk result (λ found. found ≡ Some (command.Project name.now text.now)) }
{
    let name = name.copy(alloc)?;
    let text = text.copy(alloc)?;
    Ok(Some(Command::Project { name, text }))
}

fn seed(alloc: Global, subject: &Text) -> Result<Option<Command>, NoMemory>
    ensures { IfOk result (λ found. found ≡ Some (command.Seed subject.now)) }
{
    let subject = subject.copy(alloc)?;
    Ok(Some(Command::Seed { subject }))
}

fn unseed(alloc: Global, subject: &Text) -> Result<Option<Command>, NoMemory>
    ensures { IfOk result (λ found. found ≡ Some (command.Unseed subject.now)) }
{
    let subject = subject.copy(alloc)?;
    Ok(Some(Command::Unseed { subject }))
}

/// The command of an action. Its texts are copied.
fn command_of(
    alloc: Global,
    route: &Route,
    token: &Option<Token>,
) -> Result<Option<Command>, NoMemory>
    ensures { IfOk result (λ found. found ≡ command_of route.now token.now) }
{
    match route {
        Route::Join { name, password } => join(alloc, name, password),
        Route::Login { name, password } => login(alloc, name, password, token),
        Route::Logout => Ok(Some(Command::Logout)),
        Route::Cert { subject, level } => cert(alloc, subject, *level),
        Route::Diary { text } => diary(alloc, text),
        Route::Article { title, text } => article(alloc, title, text),
        Route::Reply { article, text } => reply(alloc, *article, text),
        Route::Project { name, text } => project(alloc, name, text),
        Route::Seed { subject } => seed(alloc, subject),
        Route::Unseed { subject } => unseed(alloc, subject),
        Route::Table { caps } => Ok(Some(Command::Table { caps: *caps })),
        _ => Ok(None),
    }
}

/// The author that the cookies name.
fn author_by(alloc: Global, session: &Option<(Text, Token)>) -> Result<Option<Author>, NoMemory>
    ensures { IfOk result (λ found. found ≡ author_by session.now) }
{
    match session {
        Some((name, token)) => Ok(Some(Author::Session(name.copy(alloc)?, *token))),
        None => Ok(None),
    }
}

fn author_of(alloc: Global, request: &Request) -> Result<Option<Author>, NoMemory>
    ensures { IfOk result (λ found. found ≡ author_of request.now.route request.now.session) }
{
    match request.route {
        Route::Join { .. } | Route::Login { .. } => Ok(None),
        _ => author_by(alloc, &request.session),
    }
}

/// The act that a request asks for, where it asks for one. Its texts are copied.
pub(crate) fn act_of(
    alloc: Global,
    request: &Request,
    token: &Option<Token>,
) -> Result<Option<Act>, NoMemory>
    requires { fixed_status request.now ≡ None }
    ensures { IfOk result (λ found. MatchOption found (command_of request.now.route token.now ≡ None) (IsActOf request.now token.now)) }
{
    let Some(command) = command_of(alloc, &request.route, token)? else {
        return Ok(None);
    };
    let author = author_of(alloc, request)?;
    Ok(Act::of(author, command))
}
