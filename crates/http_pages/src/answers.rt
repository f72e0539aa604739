//! The responses to acts.

ghost use Rattle.std.specs.Prelude.{◌≡◌, ◌<◌, IfOk, codes, option_map};
ghost use Rattle.std.specs.Option.{option_copied};
ghost use Rattle.http.specs.StatusCode.{IsStatusCode};
ghost use Rattle.site_history.specs.Words.{reply_words};
ghost use Rattle.http_pages.specs.Answers.{reply_status, named_path, change_path, diary_path, reply_path, project_path, post_path, location_of, named_cookie, login_cookie, cookie_of, reply_response, answer_response};
ghost use Rattle.html_pages.specs.Dates.{NO_DATE};
ghost use Rattle.http_pages.specs.Responses.{bytes_of};
ghost use Rattle.http_pages.specs.inner.Leads.{path, cookie_text};

use crate::leads::{Cookie, Place};
use crate::responses::{Head, Kind, failed, respond};
use html_pages::Body;
use http_requests::{Request, Route};
use posting_policy::PostKind;
use sessions::Token;
use site_history::{Answer, Refusal, Reply};
use std::alloc::Global;
use trust_types::{Name, NoMemory, Text};

/// The response to a request for an act that got this answer. An accepted act leads to the page of what it did, 303 without a body; a login has
/// the cookie of its session, by the name in its form and the token that was drawn for it, and a logout the one that takes it back. A refusal has
/// its words on the page of an error, under its status. As the request has it, the link is to be closed, and the body isn't sent. The response is
/// written once, into memory of its length.
///
/// # Errors
/// [`NoMemory`] where there isn't enough for the response.
pub fn answer_page(
    alloc: Global,
    request: &Request,
    answer: &Answer,
    token: Option<&Token>,
    moment: u64,
) -> Result<Vec<u8>, NoMemory>
    requires { moment < NO_DATE }
    ensures { IfOk result (λ bytes. bytes.items ≡ bytes_of (answer_response request.now (option_copied token.entry) answer.now) request.now.close request.now.bare moment) }
{
    match answer {
        Ok(reply) => reply_page(alloc, request, reply, token, moment),
        Err(refusal) => refusal_page(alloc, request, refusal, moment),
    }
}

fn reply_page(
    alloc: Global,
    request: &Request,
    reply: &Reply,
    token: Option<&Token>,
    moment: u64,
) -> Result<Vec<u8>, NoMemory>
    requires { moment < NO_DATE }
    ensures { IfOk result (λ bytes. bytes.items ≡ bytes_of (answer_response request.now (option_copied token.entry) (Ok reply.now)) request.now.close request.now.bare moment) }
{
    let status = reply_status(reply);
    let Some(place) = location(request, reply) else {
        let words = reply.to_string(alloc)?;
        return failed(alloc, request, status, words.as_str(), moment);
    };
    let told = Head {
        status,
        kind: Kind::Html,
        location: Some(place),
        cookie: cookie(request, token, reply),
        close: request.close,
    };
    respond(alloc, &told, &Body::Empty, request.bare, moment)
}

fn refusal_page(
    alloc: Global,
    request: &Request,
    refusal: &Refusal,
    moment: u64,
) -> Result<Vec<u8>, NoMemory>
    requires { moment < NO_DATE }
    ensures { IfOk result (λ bytes. bytes.items ≡ bytes_of (answer_response request.now None (Err refusal.now)) request.now.close request.now.bare moment) }
{
    let words = refusal.to_string(alloc)?;
    failed(alloc, request, 503, words.as_str(), moment)
}

fn reply_status(reply: &Reply) -> u16
    ensures status { result ≡ reply_status reply.now }
    ensures code { IsStatusCode result }
{
    match reply {
        Reply::Joined(_)
        | Reply::Revised(_)
        | Reply::Posted(_, _)
        | Reply::LoggedIn(_)
        | Reply::LoggedOut => 303,
        Reply::BadName | Reply::SelfCert | Reply::NoSuchLevel(_) | Reply::LongText(_) => 400,
        Reply::NoSession
        | Reply::NoSuchAuthor
        | Reply::WrongPassword
        | Reply::Denied(_, _)
        | Reply::NotSteward => 403,
        Reply::NoSuchAccount | Reply::NoSuchArticle => 404,
        Reply::NameTaken(_)
        | Reply::Same
        | Reply::NotSeed
        | Reply::LastSeed
        | Reply::LevelsFall(_) => 409,
        Reply::AccountsFull
        | Reply::CertsFull
        | Reply::SessionsFull
        | Reply::TokenTaken
        | Reply::Fault => 503,
    }
}

/// Where a reply leads; `None` for one that refuses.
fn location(request: &Request, reply: &Reply) -> Option<Place>
    ensures { option_map path result ≡ location_of request.now reply.now }
{
    match reply {
        Reply::Joined(_) => Some(Place::Account),
        Reply::Revised(_) => Some(changed(&request.route)),
        Reply::Posted(kind, number) => Some(posted(request, *kind, *number)),
        Reply::LoggedIn(_) | Reply::LoggedOut => Some(Place::Front),
        _ => None,
    }
}

fn changed(route: &Route) -> Place
    ensures { path result ≡ change_path route.now }
{
    match route {
        Route::Cert { subject, .. } | Route::Seed { subject } | Route::Unseed { subject } => {
            person(subject)
        }
        Route::Table { .. } => Place::Stewards,
        _ => Place::Front,
    }
}

fn posted(request: &Request, kind: PostKind, number: u32) -> Place
    ensures { path result ≡ post_path request.now kind number }
{
    match kind {
        PostKind::Diary => diary(&request.session),
        PostKind::Article => Place::Article(number),
        PostKind::Reply => replied(&request.route),
        PostKind::Project => project(&request.route),
    }
}

fn replied(route: &Route) -> Place
    ensures { path result ≡ reply_path route.now }
{
    match route {
        Route::Reply { article, .. } => Place::Article(*article),
        _ => Place::Front,
    }
}

fn project(route: &Route) -> Place
    ensures { path result ≡ project_path route.now }
{
    match route {
        Route::Project { name, .. } => project_of(name),
        _ => Place::Front,
    }
}

fn project_of(word: &Text) -> Place
    ensures { path result ≡ named_path (codes "/project/") word.now }
{
    match Name::read(word.as_str().as_bytes()) {
        Some(name) => Place::Project(name),
        None => Place::Front,
    }
}

fn person(word: &Text) -> Place
    ensures { path result ≡ named_path (codes "/person/") word.now }
{
    match Name::read(word.as_str().as_bytes()) {
        Some(name) => Place::Person(name),
        None => Place::Front,
    }
}

fn diary(session: &Option<(Text, Token)>) -> Place
    ensures { path result ≡ diary_path session.now }
{
    match session {
        Some((name, _)) => diary_of(name),
        None => Place::Front,
    }
}

fn diary_of(word: &Text) -> Place
    ensures { path result ≡ named_path (codes "/diary/") word.now }
{
    match Name::read(word.as_str().as_bytes()) {
        Some(name) => Place::Diary(name),
        None => Place::Front,
    }
}

/// The cookie of a reply, where it has one.
fn cookie<'a>(request: &Request, token: Option<&'a Token>, reply: &Reply) -> Option<Cookie<'a>>
    ensures { option_map cookie_text result ≡ cookie_of request.now (option_copied token.entry) reply.now }
{
    match reply {
        Reply::LoggedIn(_) => login_cookie(&request.route, token),
        Reply::LoggedOut => Some(Cookie::Ended),
        _ => None,
    }
}

fn login_cookie<'a>(route: &Route, token: Option<&'a Token>) -> Option<Cookie<'a>>
    ensures { option_map cookie_text result ≡ login_cookie route.now (option_copied token.entry) }
{
    match route {
        Route::Login { name, .. } => named_cookie(name, token),
        _ => None,
    }
}

fn named_cookie<'a>(word: &Text, token: Option<&'a Token>) -> Option<Cookie<'a>>
    ensures { option_map cookie_text result ≡ named_cookie word.now (option_copied token.entry) }
{
    let Some(token) = token else {
        return None;
    };
    match Name::read(word.as_str().as_bytes()) {
        Some(name) => Some(Cookie::Session(name, token)),
        None => None,
    }
}
