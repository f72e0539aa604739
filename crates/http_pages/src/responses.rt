//! A response, head and body.

ghost use Rattle.std.specs.Prelude.{◌≡◌, ◌<◌, [], OnOk, IfOk, Some, option_map, unwrap_or};
ghost use Rattle.http.specs.StatusCode.{IsStatusCode, reason_phrase};
ghost use Rattle.html_pages.specs.Dates.{NO_DATE};
ghost use Rattle.http_pages.specs.Responses.{html, found, failed, status_line, date_line, kind_word, type_line, length_line, location_line, cookie_line, connection_word, connection_line, head, sent, bytes_of};
ghost use Rattle.html_pages.specs.Bodies.{body_of};
ghost use Rattle.http_pages.specs.inner.Heads.{response_of};
ghost use Rattle.html_pages.specs.Inks.{inked};
ghost use Rattle.http_pages.specs.inner.Leads.{path, cookie_text};

use crate::leads::{Cookie, Place, put_cookie, put_place};
use html_pages::{Body, Pen, put_body};
use http::StatusCode;
use http_requests::Request;
use std::alloc::Global;
use trust_types::NoMemory;

/// The media type of a body (RFC 9110, section 8.3.1).
#[derive(Clone, Copy, Debug, PartialEq, Eq)]
pub enum Kind {
    Html,
    Plain,
}

/// What the head says beside the length of the body.
#[derive(Drop)]
pub struct Head<'a> {
    pub status: u16,
    pub kind: Kind,
    /// The page to look at next.
    pub location: Option<Place>,
    pub cookie: Option<Cookie<'a>>,
    /// Whether the link is to be closed.
    pub close: bool,
}

fn phrase_of(status: u16) -> &'static str
    requires { IsStatusCode status }
    ensures { result.now ≡ unwrap_or (reason_phrase status) [] }
{
    match StatusCode::from_u16(status) {
        Ok(code) => code.canonical_reason().unwrap_or(""),
        Err(_) => unreachable!(),
    }
}

#[tactic(auto, unfolding(crate::specs::Responses::kind_word))]
fn kind_word(kind: Kind) -> &'static str
    ensures { result.now ≡ kind_word kind }
{
    match kind {
        Kind::Html => "text/html",
        Kind::Plain => "text/plain",
    }
}

fn connection_word(close: bool) -> &'static str
    ensures { result.now ≡ connection_word close }
{
    if close { "close" } else { "keep-alive" }
}

#[tactic(auto, using(html_pages::proofs::Inking::inked_twice), unfolding(crate::specs::Responses::status_line))]
fn put_status(pen: &mut Pen, status: u16) -> Result<(), NoMemory>
    requires { IsStatusCode status }
    ensures { OnOk result (pen.new ≡ inked pen.old (status_line status)) }
{
    pen.put(b"HTTP/1.1 ")?;
    pen.put_number(status as u64)?;
    pen.put(b" ")?;
    pen.put(phrase_of(status).as_bytes())?;
    pen.put(b"\r\n")?;
    Ok(())
}

#[tactic(auto, using(html_pages::proofs::Inking::inked_twice), unfolding(crate::specs::Responses::date_line))]
fn put_date(pen: &mut Pen, moment: u64) -> Result<(), NoMemory>
    requires { moment < NO_DATE }
    ensures { OnOk result (pen.new ≡ inked pen.old (date_line moment)) }
{
    pen.put(b"Date: ")?;
    pen.put_date(moment)?;
    pen.put(b"\r\n")?;
    Ok(())
}

#[tactic(auto, using(html_pages::proofs::Inking::inked_twice), unfolding(crate::specs::Responses::type_line))]
fn put_type(pen: &mut Pen, kind: Kind) -> Result<(), NoMemory>
    ensures { OnOk result (pen.new ≡ inked pen.old (type_line kind)) }
{
    pen.put(b"Content-Type: ")?;
    pen.put(kind_word(kind).as_bytes())?;
    pen.put(b"; charset=utf-8\r\n")?;
    Ok(())
}

#[tactic(auto, using(html_pages::proofs::Inking::inked_twice), unfolding(crate::specs::Responses::length_line))]
fn put_length(pen: &mut Pen, length: usize) -> Result<(), NoMemory>
    ensures { OnOk result (pen.new ≡ inked pen.old (length_line length)) }
{
    pen.put(b"Content-Length: ")?;
    pen.put_number(length as u64)?;
    pen.put(b"\r\n")?;
    Ok(())
}

#[tactic(auto, using(html_pages::proofs::Inking::inked_twice), unfolding(crate::specs::Responses::connection_line))]
fn put_connection(pen: &mut Pen, close: bool) -> Result<(), NoMemory>
    ensures { OnOk result (pen.new ≡ inked pen.old (connection_line close)) }
{
    pen.put(b"Connection: ")?;
    pen.put(connection_word(close).as_bytes())?;
    pen.put(b"\r\n")?;
    Ok(())
}

#[tactic(auto, using(html_pages::proofs::Inking::inked_twice), unfolding(crate::specs::Responses::location_line))]
fn put_location_line(pen: &mut Pen, place: &Place) -> Result<(), NoMemory>
    ensures { OnOk result (pen.new ≡ inked pen.old (location_line (Some (path place.now)))) }
{
    pen.put(b"Location: ")?;
    put_place(pen, place)?;
    pen.put(b"\r\n")?;
    Ok(())
}

#[tactic(auto, unfolding(crate::specs::Responses::location_line))]
fn put_location(pen: &mut Pen, location: &Option<Place>) -> Result<(), NoMemory>
    ensures { OnOk result (pen.new ≡ inked pen.old (location_line (option_map path location.now))) }
{
    match location {
        Some(place) => put_location_line(pen, place),
        None => pen.put(b""),
    }
}

#[tactic(auto, using(html_pages::proofs::Inking::inked_twice), unfolding(crate::specs::Responses::cookie_line))]
fn put_cookie_line(pen: &mut Pen, cookie: &Cookie<'_>) -> Result<(), NoMemory>
    ensures { OnOk result (pen.new ≡ inked pen.old (cookie_line (Some (cookie_text cookie.now)))) }
{
    pen.put(b"Set-Cookie: ")?;
    put_cookie(pen, cookie)?;
    pen.put(b"\r\n")?;
    Ok(())
}

#[tactic(auto, unfolding(crate::specs::Responses::cookie_line))]
fn put_set_cookie(pen: &mut Pen, cookie: &Option<Cookie<'_>>) -> Result<(), NoMemory>
    ensures { OnOk result (pen.new ≡ inked pen.old (cookie_line (option_map cookie_text cookie.now))) }
{
    match cookie {
        Some(cookie) => put_cookie_line(pen, cookie),
        None => pen.put(b""),
    }
}

#[tactic(auto, using(html_pages::proofs::Inking::inked_twice), unfolding(crate::specs::Responses::head))]
fn put_head(pen: &mut Pen, told: &Head<'_>, length: usize, moment: u64) -> Result<(), NoMemory>
    requires status { IsStatusCode told.now.status }
    requires moment { moment < NO_DATE }
    ensures { OnOk result (pen.new ≡ inked pen.old (head told.now.status told.now.kind length (option_map path told.now.location) (option_map cookie_text told.now.cookie) told.now.close moment)) }
{
    put_status(pen, told.status)?;
    put_date(pen, moment)?;
    put_type(pen, told.kind)?;
    put_length(pen, length)?;
    put_location(pen, &told.location)?;
    put_set_cookie(pen, &told.cookie)?;
    put_connection(pen, told.close)?;
    pen.put(b"\r\n")?;
    Ok(())
}

/// Puts down what is sent of a body.
fn put_sent(pen: &mut Pen, body: &Body<'_>, bare: bool) -> Result<(), NoMemory>
    ensures { OnOk result (pen.new ≡ inked pen.old (sent bare (body_of body.now))) }
{
    if bare { Ok(()) } else { put_body(pen, body) }
}

/// The response of a head and a body. Both are counted first, and then written once, into memory of their length.
pub fn respond(
    alloc: Global,
    told: &Head<'_>,
    body: &Body<'_>,
    bare: bool,
    moment: u64,
) -> Result<Vec<u8>, NoMemory>
    requires status { IsStatusCode told.now.status }
    requires moment { moment < NO_DATE }
    ensures { IfOk result (λ bytes. bytes.items ≡ bytes_of (response_of told.now body.now) told.now.close bare moment) }
{
    let mut counter = Pen::counting();
    put_body(&mut counter, body)?;
    let length = counter.amount();
    let mut counter = Pen::counting();
    put_head(&mut counter, told, length, moment)?;
    put_sent(&mut counter, body, bare)?;
    let mut pen = Pen::writing(alloc, counter.amount())?;
    put_head(&mut pen, told, length, moment)?;
    put_sent(&mut pen, body, bare)?;
    Ok(pen.into_text(alloc))
}

/// The response of a status and a body of HTML.
pub fn respond_html(
    alloc: Global,
    status: u16,
    body: &Body<'_>,
    close: bool,
    bare: bool,
    moment: u64,
) -> Result<Vec<u8>, NoMemory>
    requires status { IsStatusCode status }
    requires moment { moment < NO_DATE }
    ensures { IfOk result (λ bytes. bytes.items ≡ bytes_of (html status (body_of body.now)) close bare moment) }
{
    let told = Head {
        status,
        kind: Kind::Html,
        location: None,
        cookie: None,
        close,
    };
    respond(alloc, &told, body, bare, moment)
}

/// The page that a request asked for.
pub fn found(
    alloc: Global,
    request: &Request,
    body: &Body<'_>,
    moment: u64,
) -> Result<Vec<u8>, NoMemory>
    requires { moment < NO_DATE }
    ensures { IfOk result (λ bytes. bytes.items ≡ bytes_of (found (body_of body.now)) request.now.close request.now.bare moment) }
{
    respond_html(alloc, 200, body, request.close, request.bare, moment)
}

/// The page that says why there is none for a request.
pub fn failed(
    alloc: Global,
    request: &Request,
    status: u16,
    text: &str,
    moment: u64,
) -> Result<Vec<u8>, NoMemory>
    requires status { IsStatusCode status }
    requires moment { moment < NO_DATE }
    ensures { IfOk result (λ bytes. bytes.items ≡ bytes_of (failed status text.now) request.now.close request.now.bare moment) }
{
    respond_html(
        alloc,
        status,
        &Body::Error(text),
        request.close,
        request.bare,
        moment,
    )
}
