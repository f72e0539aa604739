//! Steps on the live sessions of a site. A token is 32 hex digits. A step is one of these:
//!
//! - `secret NAME PASSWORD`: the digest that is kept of the password, in hex digits;
//! - `login ACCOUNT TOKEN`: the account logs in, if the token is free; how many sessions are live then;
//! - `logout TOKEN`: the session of the token ends; how many are live then;
//! - `who TOKEN`: the account that is logged in under the token;
//! - `judge TOKEN NAME KEPT SHOWN`: whether who shows this password may log in under the token, where KEPT is the account's;
//! - `judge TOKEN NAME`: the same where no password of the account is kept.

use hex::FromHex;
use sessions::{LoginFault, Sessions, Token, secret_of};
use std::alloc::Global;
use trust_types::{AccountNo, Name, NoMemory, Secret};

/// What a step asks for.
enum Step {
    Secret(Secret),
    Login(AccountNo, Token),
    Logout(Token),
    Who(Token),
    /// What is kept of the account's password, and what is shown.
    Judge(Token, Secret, Secret),
}

fn token_of(word: &str) -> Option<Token> {
    match <[u8; 16] as FromHex>::from_hex(word) {
        Ok(bytes) => Some(Token(bytes)),
        Err(_) => None,
    }
}

/// What is kept of the password in `NAME PASSWORD`.
fn secret_in(words: &str) -> Option<Secret> {
    let (name, password) = words.split_once(' ')?;
    let name = Name::read(name.as_bytes())?;
    Some(secret_of(&name, password))
}

/// What is asked for by `ACCOUNT TOKEN`.
fn login_in(words: &str) -> Option<Step> {
    let (account, token) = words.split_once(' ')?;
    Some(Step::Login(AccountNo(account.parse().ok()?), token_of(token)?))
}

/// What is kept and what is shown of the passwords in `NAME KEPT SHOWN`, or in `NAME`.
fn kept_and_shown(words: &str) -> Option<(Secret, Secret)> {
    let Some((name, passwords)) = words.split_once(' ') else {
        return Some((Secret::Absent, Secret::Absent));
    };
    let name = Name::read(name.as_bytes())?;
    let (kept, shown) = passwords.split_once(' ')?;
    Some((secret_of(&name, kept), secret_of(&name, shown)))
}

/// What is asked for by `TOKEN NAME KEPT SHOWN`.
fn judge_in(words: &str) -> Option<Step> {
    let (token, words) = words.split_once(' ')?;
    let (kept, shown) = kept_and_shown(words)?;
    Some(Step::Judge(token_of(token)?, kept, shown))
}

/// What a step with this verb asks for, by the words behind it; `None` where it is none.
fn by_words(verb: &str, words: &str) -> Option<Step> {
    if verb == "secret" {
        return Some(Step::Secret(secret_in(words)?));
    }
    if verb == "login" {
        return login_in(words);
    }
    if verb == "judge" {
        return judge_in(words);
    }
    if verb == "logout" {
        return Some(Step::Logout(token_of(words)?));
    }
    if verb == "who" {
        return Some(Step::Who(token_of(words)?));
    }
    None
}

/// What the step asks for; `None` where it is none.
fn step_of(line: &str) -> Option<Step> {
    let (verb, words) = line.split_once(' ')?;
    by_words(verb, words)
}

/// The digest of a password; zeros where there is none.
fn digest_of(secret: Secret) -> [u8; 32] {
    match secret {
        Secret::Digest(digest) => digest,
        Secret::Absent => [0; 32],
    }
}

fn live(alloc: Global, sessions: &Sessions) -> Result<String, NoMemory> {
    Ok(format!(in alloc; "{} live", sessions.count())?)
}

fn login(
    alloc: Global,
    sessions: &mut Sessions,
    account: AccountNo,
    token: Token,
) -> Result<String, NoMemory> {
    if sessions.who(&token).is_some() {
        return Ok(String::from_str(alloc, "token taken")?);
    }
    sessions.reserve()?;
    sessions.login(account, token);
    live(alloc, sessions)
}

fn who(alloc: Global, sessions: &Sessions, token: &Token) -> Result<String, NoMemory> {
    match sessions.who(token) {
        Some(account) => Ok(format!(in alloc; "account {}", account.0)?),
        None => Ok(String::from_str(alloc, "nobody")?),
    }
}

fn judge(sessions: &Sessions, token: &Token, kept: &Secret, shown: &[u8; 32]) -> &'static str {
    match sessions.judge(kept, shown, token) {
        Ok(()) => "admitted",
        Err(LoginFault::WrongPassword) => "wrong password",
        Err(LoginFault::TokenTaken) => "token taken",
        Err(LoginFault::SessionsFull) => "sessions full",
    }
}

/// Does what is asked for. Gives the answer.
fn done(alloc: Global, sessions: &mut Sessions, step: Step) -> Result<String, NoMemory> {
    match step {
        Step::Secret(secret) => Ok(hex::encode(alloc, digest_of(secret))?),
        Step::Login(account, token) => login(alloc, sessions, account, token),
        Step::Logout(token) => {
            sessions.logout(&token);
            live(alloc, sessions)
        }
        Step::Who(token) => who(alloc, sessions, &token),
        Step::Judge(token, kept, shown) => {
            let answer = judge(sessions, &token, &kept, &digest_of(shown));
            Ok(String::from_str(alloc, answer)?)
        }
    }
}

/// Takes a step. Gives the answer.
pub(crate) fn answer(
    alloc: Global,
    sessions: &mut Sessions,
    line: &str,
) -> Result<String, NoMemory> {
    match step_of(line) {
        Some(step) => done(alloc, sessions, step),
        None => Ok(String::from_str(alloc, "no such step")?),
    }
}
