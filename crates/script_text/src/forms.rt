//! The lines of a script, form by form: what is behind the first word.

ghost use Rattle.std.specs.Prelude.{◌≡◌, Ok, Err, IsTrue, MatchResult, option_map};
ghost use Rattle.text_lines.specs.declared.faults.TextKind.{TextKind as LineKind};
ghost use Rattle.text_lines.specs.declared.faults.LineFault.TheVariants.{Kind as KindOf};
ghost use Rattle.site_lines.specs.Site.{numbers};
ghost use Rattle.site_history.specs.Acts.{may_have};
ghost use Rattle.script_text.specs.declared.lines.ScriptLine.TheVariants as asks;
ghost use Rattle.script_text.specs.Lines.{act, secret_by, proof_by, secret_in, table_in, moment_line, join_line, seed_line, unseed_line, cert_line, table_line, diary_line, article_line, reply_line, project_line, login_line, logout_line, level_line, actor_line, look_line, said_by};
ghost use Rattle.script_text.specs.Scripts.{said};
ghost use Rattle.script_text.specs.inner.Reading.{Tells, TellsWith};

use crate::actors::Actors;
use crate::keywords::Keyword;
use crate::lines::ScriptLine;
use crate::places::{any_grade, any_level, moment_in, number_in, text_in, token_in};
use crate::words::LineWords;
use sessions::secret_of;
use site_history::{Act, Author, Command};
use std::alloc::Global;
use text_lines::{LineFault, TextKind};
use trust_types::{Caps, Name, Secret, Text};

/// Reads a line of these words.
///
/// # Errors
/// [`LineFault::Kind`] where the line has a fault, with its kind, unless memory ran out, and only there; [`LineFault::NoMemory`]
/// where memory ran out. Which actors were named is open after an error.
pub(crate) fn read_words(
    alloc: Global,
    actors: &mut Actors,
    words: &mut LineWords,
) -> Result<ScriptLine, LineFault>
    ensures { TellsWith actors.new result (said actors.old words.old) }
{
    let word = words.first()?;
    let keyword = Keyword::of(word.as_bytes()).ok_or(TextKind::BadLine)?;
    read_form(alloc, keyword, actors, words)
}

/// Reads a line of that form.
fn read_form(
    alloc: Global,
    keyword: Keyword,
    actors: &mut Actors,
    words: &mut LineWords,
) -> Result<ScriptLine, LineFault>
    ensures { TellsWith actors.new result (said_by keyword actors.old words.old) }
{
    match keyword {
        Keyword::Moment => moment(words),
        Keyword::Join => join(alloc, words),
        Keyword::Seed => seed(alloc, words),
        Keyword::Unseed => unseed(alloc, words),
        Keyword::Cert => cert(alloc, words),
        Keyword::Table => table(alloc, words),
        Keyword::Diary => diary(alloc, words),
        Keyword::Article => article(alloc, words),
        Keyword::Reply => reply(alloc, words),
        Keyword::Project => project(alloc, words),
        Keyword::Login => login(alloc, words),
        Keyword::Logout => logout(alloc, words),
        Keyword::Freeze => freeze(actors, words),
        Keyword::Solve => solve(actors, words),
        Keyword::Publish => publish(actors, words),
        Keyword::Look => look(actors, words),
        Keyword::Level => level(alloc, words),
    }
}

/// The act of an author, or of nobody, who may give the command.
fn act(author: Option<Author>, command: Command) -> ScriptLine
    requires fits { IsTrue (may_have command author) }
    ensures { (fits : IsTrue (may_have command author)) → result ≡ act author command fits }
{
    ScriptLine::Act(Act { author, command })
}

/// `moment MOMENT`.
fn moment(words: &mut LineWords) -> Result<ScriptLine, LineFault>
    ensures { Tells result (moment_line words.old) }
{
    let word = words.one()?;
    Ok(ScriptLine::Moment(moment_in(word)?))
}

/// What is kept of a password.
fn secret_by(word: &str, password: &str) -> Secret
    ensures { result ≡ secret_by word.now password.now }
{
    match Name::read(word.as_bytes()) {
        Some(name) => secret_of(&name, password),
        None => Secret::Absent,
    }
}

/// What proves the password of which this would be kept.
fn proof_by(secret: Secret) -> [u8; 32]
    ensures { result ≡ proof_by secret }
{
    match secret {
        Secret::Digest(digest) => digest,
        Secret::Absent => [0; 32],
    }
}

/// The secret of a new account with that name.
fn secret_in(alloc: Global, name: &str, word: Option<&str>) -> Result<Secret, LineFault>
    ensures { Tells result (secret_in name.now (option_map (λ word. word.now) word.entry)) }
{
    let Some(word) = word else {
        return Ok(Secret::Absent);
    };
    let password = text_in(alloc, word)?;
    Ok(secret_by(name, password.as_str()))
}

/// `join WORD` or `join WORD TEXT`: a new account's name, and its password.
fn join(alloc: Global, words: &mut LineWords) -> Result<ScriptLine, LineFault>
    ensures { Tells result (join_line words.old) }
{
    let (name, word) = words.one_or_two()?;
    let secret = secret_in(alloc, name, word)?;
    let name = Text::of(alloc, name)?;
    Ok(act(None, Command::Join { name, secret }))
}

/// `seed WORD`.
fn seed(alloc: Global, words: &mut LineWords) -> Result<ScriptLine, LineFault>
    ensures { Tells result (seed_line words.old) }
{
    let subject = Text::of(alloc, words.one()?)?;
    Ok(act(None, Command::Seed { subject }))
}

/// `unseed WORD`.
fn unseed(alloc: Global, words: &mut LineWords) -> Result<ScriptLine, LineFault>
    ensures { Tells result (unseed_line words.old) }
{
    let subject = Text::of(alloc, words.one()?)?;
    Ok(act(None, Command::Unseed { subject }))
}

/// `cert WORD WORD LEVEL`: the first certifies the second.
fn cert(alloc: Global, words: &mut LineWords) -> Result<ScriptLine, LineFault>
    ensures { Tells result (cert_line words.old) }
{
    let (giver, taker, level) = words.three()?;
    let level = any_level(level)?;
    let author = Author::Named(Text::of(alloc, giver)?);
    let subject = Text::of(alloc, taker)?;
    Ok(act(Some(author), Command::Cert { subject, level }))
}

/// The numbers that all of the words write.
fn numbers(alloc: Global, words: &mut LineWords) -> Result<Vec<u32>, LineFault>
    ensures { MatchResult result (λ found. numbers words.old ≡ Ok found.items) (λ fault. (kind : LineKind) → fault ≡ KindOf kind → numbers words.old ≡ Err kind) }
{
    let mut found = Vec::new(alloc);
    while let Some(word) = words.next_word() {
        found.push(number_in(word)?)?;
    }
    Ok(found)
}

/// The table of which the first number is the number of levels, and the others are the entries.
fn table_in(numbers: &[u32]) -> Result<Caps, TextKind>
    ensures { result ≡ table_in numbers.now }
{
    let Some((levels, entries)) = numbers.split_first() else {
        return Err(TextKind::BadLine);
    };
    match Caps::with_levels(*levels, entries) {
        Ok(caps) => Ok(caps),
        Err(fault) => Err(TextKind::of_table(fault)),
    }
}

/// `table NUMBER NUMBER..`: the levels, and the entries.
fn table(alloc: Global, words: &mut LineWords) -> Result<ScriptLine, LineFault>
    ensures { Tells result (table_line words.old) }
{
    let numbers = numbers(alloc, words)?;
    let caps = table_in(&numbers)?;
    Ok(act(None, Command::Table { caps }))
}

/// `diary WORD TEXT`: the author, and the text.
fn diary(alloc: Global, words: &mut LineWords) -> Result<ScriptLine, LineFault>
    ensures { Tells result (diary_line words.old) }
{
    let (author, text) = words.two()?;
    let text = text_in(alloc, text)?;
    let author = Author::Named(Text::of(alloc, author)?);
    Ok(act(Some(author), Command::Diary { text }))
}

/// `article WORD TEXT TEXT`: the author, the title and the text.
fn article(alloc: Global, words: &mut LineWords) -> Result<ScriptLine, LineFault>
    ensures { Tells result (article_line words.old) }
{
    let (author, title, text) = words.three()?;
    let title = text_in(alloc, title)?;
    let text = text_in(alloc, text)?;
    let author = Author::Named(Text::of(alloc, author)?);
    Ok(act(Some(author), Command::Article { title, text }))
}

/// `reply WORD NUMBER TEXT`: the author, the article and the text.
fn reply(alloc: Global, words: &mut LineWords) -> Result<ScriptLine, LineFault>
    ensures { Tells result (reply_line words.old) }
{
    let (author, article, text) = words.three()?;
    let article = number_in(article)?;
    let text = text_in(alloc, text)?;
    let author = Author::Named(Text::of(alloc, author)?);
    Ok(act(Some(author), Command::Reply { article, text }))
}

/// `project WORD WORD TEXT`: the author, the project's name and the text.
fn project(alloc: Global, words: &mut LineWords) -> Result<ScriptLine, LineFault>
    ensures { Tells result (project_line words.old) }
{
    let (author, name, text) = words.three()?;
    let text = text_in(alloc, text)?;
    let author = Author::Named(Text::of(alloc, author)?);
    let name = Text::of(alloc, name)?;
    Ok(act(Some(author), Command::Project { name, text }))
}

/// `login WORD TEXT HEX`: an account's name, its password and the token of the session.
fn login(alloc: Global, words: &mut LineWords) -> Result<ScriptLine, LineFault>
    ensures { Tells result (login_line words.old) }
{
    let (name, password, token) = words.three()?;
    let password = text_in(alloc, password)?;
    let token = token_in(token)?;
    let proof = proof_by(secret_by(name, password.as_str()));
    let name = Text::of(alloc, name)?;
    Ok(act(None, Command::Login { name, proof, token }))
}

/// `logout WORD HEX`: the account that is logged in under the token.
fn logout(alloc: Global, words: &mut LineWords) -> Result<ScriptLine, LineFault>
    ensures { Tells result (logout_line words.old) }
{
    let (name, token) = words.two()?;
    let token = token_in(token)?;
    let author = Author::Session(Text::of(alloc, name)?, token);
    Ok(act(Some(author), Command::Logout))
}

/// `level WORD`.
fn level(alloc: Global, words: &mut LineWords) -> Result<ScriptLine, LineFault>
    ensures { Tells result (level_line words.old) }
{
    let name = words.one()?;
    Ok(ScriptLine::Level(Text::of(alloc, name)?))
}

/// `freeze ACTOR`.
fn freeze(actors: &mut Actors, words: &mut LineWords) -> Result<ScriptLine, LineFault>
    ensures { TellsWith actors.new result (actor_line asks.Freeze actors.old words.old) }
{
    let word = words.one()?;
    Ok(ScriptLine::Freeze(actors.actor_in(word)?))
}

/// `solve ACTOR`.
fn solve(actors: &mut Actors, words: &mut LineWords) -> Result<ScriptLine, LineFault>
    ensures { TellsWith actors.new result (actor_line asks.Solve actors.old words.old) }
{
    let word = words.one()?;
    Ok(ScriptLine::Solve(actors.actor_in(word)?))
}

/// `publish ACTOR`.
fn publish(actors: &mut Actors, words: &mut LineWords) -> Result<ScriptLine, LineFault>
    ensures { TellsWith actors.new result (actor_line asks.Publish actors.old words.old) }
{
    let word = words.one()?;
    Ok(ScriptLine::Publish(actors.actor_in(word)?))
}

/// `look ACTOR GRADE`.
fn look(actors: &mut Actors, words: &mut LineWords) -> Result<ScriptLine, LineFault>
    ensures { TellsWith actors.new result (look_line actors.old words.old) }
{
    let (word, grade) = words.two()?;
    let grade = any_grade(grade)?;
    let actor = actors.actor_in(word)?;
    Ok(ScriptLine::Look(actor, grade))
}
