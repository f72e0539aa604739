//! Answers to acts: the words that a site prints of them.

ghost use Rattle.std.specs.Prelude.{◌<◌};

use crate::part;
use crate::requests::request_of;
use anyhow::{Result, bail};
use hex::FromHex;
use http_pages::answer_page;
use posting_policy::PostKind;
use sessions::Token;
use site_history::{Answer, Refusal, Reply};
use std::alloc::Global;
use trust_types::{AccountNo, Level};

fn token_of(word: &str) -> Option<Token> {
    match <[u8; 16] as FromHex>::from_hex(word) {
        Ok(bytes) => Some(Token(bytes)),
        Err(_) => None,
    }
}

/// The answers that are a word or two.
fn plain(words: &str) -> Option<Reply> {
    match words {
        "logged out" => Some(Reply::LoggedOut),
        "no session" => Some(Reply::NoSession),
        "no such author" => Some(Reply::NoSuchAuthor),
        "bad name" => Some(Reply::BadName),
        "accounts full" => Some(Reply::AccountsFull),
        "no such account" => Some(Reply::NoSuchAccount),
        "self cert" => Some(Reply::SelfCert),
        "same" => Some(Reply::Same),
        "certificates full" => Some(Reply::CertsFull),
        "not a seed" => Some(Reply::NotSeed),
        "last seed" => Some(Reply::LastSeed),
        "no such article" => Some(Reply::NoSuchArticle),
        "wrong password" => Some(Reply::WrongPassword),
        "token taken" => Some(Reply::TokenTaken),
        "sessions full" => Some(Reply::SessionsFull),
        "denied Observer needs Journeyer" => Some(Reply::Denied(Level::Observer, Level::Journeyer)),
        "not a steward" => Some(Reply::NotSteward),
        "keeper fault" => Some(Reply::Fault),
        _ => None,
    }
}

/// The answers of these words and a number.
fn numbered(words: &str, number: u32) -> Option<Reply> {
    match words {
        "joined" => Some(Reply::Joined(AccountNo(number))),
        "revision" => Some(Reply::Revised(number)),
        "posted diary" => Some(Reply::Posted(PostKind::Diary, number)),
        "posted reply" => Some(Reply::Posted(PostKind::Reply, number)),
        "posted project" => Some(Reply::Posted(PostKind::Project, number)),
        "posted article" => Some(Reply::Posted(PostKind::Article, number)),
        "logged in" => Some(Reply::LoggedIn(AccountNo(number))),
        "name taken" => Some(Reply::NameTaken(number)),
        "no such level" => Some(Reply::NoSuchLevel(number)),
        "levels fall" => Some(Reply::LevelsFall(number)),
        "long text" => Some(Reply::LongText(number as u64)),
        _ => None,
    }
}

/// The answer of these words.
fn answer_of(words: &str) -> Option<Answer> {
    if words == "history full" {
        return Some(Err(Refusal::HistoryFull));
    }
    if let Some(reply) = plain(words) {
        return Some(Ok(reply));
    }
    let (front, number) = words.rsplit_once(' ')?;
    let number = number.parse().ok()?;
    if front == "text full" {
        return Some(Err(Refusal::TextFull(number as u64)));
    }
    Some(Ok(numbered(front, number)?))
}

/// The response to a step's request, where this is what the site answers.
pub fn response(alloc: Global, parts: &[&str], moment: u64) -> Result<Vec<u8>>
    requires { moment < 253_402_300_800 }
{
    let request = request_of(alloc, part(parts, 1), part(parts, 2), part(parts, 3))?;
    let Some(answer) = answer_of(part(parts, 4)) else {
        bail!("no answer");
    };
    match token_of(part(parts, 5)) {
        Some(token) => Ok(answer_page(alloc, &request, &answer, Some(&token), moment)?),
        None => Ok(answer_page(alloc, &request, &answer, None, moment)?),
    }
}
