//! Rosters of a site's text.

ghost use Rattle.std.specs.Prelude.{◌≡◌, ◌<◌, IfOk};
ghost use Rattle.http_pages.specs.Rosters.{AsksForRoster};

use crate::part;
use crate::requests::request_of;
use anyhow::{Result, bail};
use http_pages::roster_page;
use http_requests::{Request, Route};
use roster_form::{Candidate, Publication};
use site_text::read_site;
use solver::solve_alone;
use std::alloc::Global;

/// The most bytes of a site's text.
const LONGEST: usize = 1_048_576;

const TIMES: u32 = 1_000;

/// The rosters of a site's text, each LF of which is written as `;`.
fn candidate(alloc: Global, text: &str) -> Result<Candidate> {
    let lines = text.replace(alloc, ";", "\n")?;
    let bytes = lines.as_bytes();
    if bytes.len() > LONGEST {
        bail!("a site's text is too long");
    }
    let Ok(frozen) = read_site(alloc, bytes) else {
        bail!("no site");
    };
    Ok(solve_alone(alloc, &frozen)?)
}

/// The first publication of a site.
fn publication(candidate: Candidate) -> Publication {
    Publication {
        number: 1,
        revision: candidate.frozen().revision(),
        candidate,
    }
}

/// A request for a roster or a proof.
fn request(alloc: Global, parts: &[&str]) -> Result<Request>
    ensures { IfOk result (λ request. AsksForRoster request.route) }
{
    let request = request_of(alloc, part(parts, 1), "", "")?;
    match request.route {
        Route::RosterOf(_) | Route::ProofOf(_) => Ok(request),
        _ => bail!("no request for a roster"),
    }
}

/// The response to a step's request, where the site's rosters are published.
pub fn response(alloc: Global, parts: &[&str], moment: u64) -> Result<Vec<u8>>
    requires { moment < 253_402_300_800 }
{
    let request = request(alloc, parts)?;
    let text = part(parts, 2);
    if text.is_empty() {
        return Ok(roster_page(alloc, &request, None, moment)?);
    }
    let publication = publication(candidate(alloc, text)?);
    Ok(roster_page(alloc, &request, Some(&publication), moment)?)
}

/// How many bytes the response has, a thousand times.
pub fn often(alloc: Global, parts: &[&str], moment: u64) -> Result<u64>
    requires { moment < 253_402_300_800 }
{
    let request = request(alloc, parts)?;
    let publication = publication(candidate(alloc, part(parts, 2))?);
    let mut bytes: u64 = 0;
    for _ in 0..TIMES {
        let response = roster_page(alloc, &request, Some(&publication), moment)?;
        bytes = bytes.saturating_add(response.len() as u64);
    }
    Ok(bytes)
}
