//! Where a response leads, and the cookie of a session.

ghost use Rattle.std.specs.Prelude.{◌≡◌, ◌++◌, OnOk};
ghost use Rattle.hex.specs.Hex.{encode_lower};
ghost use Rattle.http_pages.specs.Answers.{article_path, session_cookie};
ghost use Rattle.html_pages.specs.Inks.{inked};
ghost use Rattle.http_pages.specs.inner.Leads.{path, cookie_text};

use html_pages::Pen;
use sessions::Token;
use trust_types::{Name, NoMemory};

/// A page of the site.
#[derive(Drop)]
pub enum Place {
    Front,
    /// The forms to join and to log in.
    Account,
    Stewards,
    Person(Name),
    Diary(Name),
    Project(Name),
    Article(u32),
}

/// The cookie by which a session is known.
#[derive(Drop)]
pub enum Cookie<'a> {
    /// A new session: the name of its account, and its token.
    Session(Name, &'a Token),
    /// The session has ended, and the cookie is taken back.
    Ended,
}

#[tactic(auto, using(html_pages::proofs::Inking::inked_twice))]
fn put_named(pen: &mut Pen, front: &[u8], name: &Name) -> Result<(), NoMemory>
    ensures { OnOk result (pen.new ≡ inked pen.old (front.now ++ name.now)) }
{
    pen.put(front)?;
    pen.put(name.bytes())?;
    Ok(())
}

#[tactic(auto, using(html_pages::proofs::Inking::inked_twice))]
fn put_article_path(pen: &mut Pen, number: u32) -> Result<(), NoMemory>
    ensures { OnOk result (pen.new ≡ inked pen.old (article_path number)) }
{
    pen.put(b"/article/")?;
    pen.put_number(number as u64)?;
    Ok(())
}

/// Puts down the path of a page.
pub fn put_place(pen: &mut Pen, place: &Place) -> Result<(), NoMemory>
    ensures { OnOk result (pen.new ≡ inked pen.old (path place.now)) }
{
    match place {
        Place::Front => pen.put(b"/"),
        Place::Account => pen.put(b"/account"),
        Place::Stewards => pen.put(b"/stewards"),
        Place::Person(name) => put_named(pen, b"/person/", name),
        Place::Diary(name) => put_named(pen, b"/diary/", name),
        Place::Project(name) => put_named(pen, b"/project/", name),
        Place::Article(number) => put_article_path(pen, *number),
    }
}

/// The 32 digits of a token, in lower case.
fn digits_of(token: &Token) -> [u8; 32]
    ensures { result ≡ encode_lower token.now }
{
    let mut digits = [0; 32];
    let _fits = hex::encode_to_slice(token.0, &mut digits);
    digits
}

#[tactic(auto, using(html_pages::proofs::Inking::inked_twice))]
fn put_session(pen: &mut Pen, name: &Name, token: &Token) -> Result<(), NoMemory>
    ensures { OnOk result (pen.new ≡ inked pen.old (session_cookie name.now token.now)) }
{
    pen.put(b"id=")?;
    pen.put(name.bytes())?;
    pen.put(b":")?;
    pen.put(&digits_of(token))?;
    pen.put(b"; Path=/; HttpOnly")?;
    Ok(())
}

/// Puts down a cookie.
pub fn put_cookie(pen: &mut Pen, cookie: &Cookie<'_>) -> Result<(), NoMemory>
    ensures { OnOk result (pen.new ≡ inked pen.old (cookie_text cookie.now)) }
{
    match cookie {
        Cookie::Session(name, token) => put_session(pen, name, token),
        Cookie::Ended => pen.put(b"id=; Path=/; Max-Age=0"),
    }
}
