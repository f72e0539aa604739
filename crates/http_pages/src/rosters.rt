//! The pages that show a roster, and its proof.

ghost use Rattle.std.specs.Prelude.{◌≡◌, ◌<◌, IfOk, Some};
ghost use Rattle.std.specs.Option.{option_copied};
ghost use Rattle.roster_form.specs.LevelRosters.{lists_of};
ghost use Rattle.roster_form.specs.Candidates.{IsSound};
ghost use Rattle.html_pages.specs.Dates.{NO_DATE};
ghost use Rattle.http_pages.specs.Responses.{Response, bytes_of};
ghost use Rattle.http_pages.specs.Rosters.{AsksForRoster, IsShown, roster_response, roster_in, IsProofResponse, IsProofIn, plain};

use crate::responses::{Head, Kind, failed, found, respond};
use audit_text::proof_text;
use html_pages::{Body, Roster};
use http_requests::{Request, Route};
use roster_form::{LevelRoster, Publication};
use std::alloc::Global;
use trust_types::{Level, NoMemory};

/// The response to a request for the roster of a grade, or for its proof, while that publication is the last one. A roster is a page of the
/// names that the publication's own graph has for its accounts; before there is a publication the page says so. A proof is the canonical text of
/// the roster over that graph, and 404 before there is a publication. Both are 404 where the publication hasn't the grade.
///
/// A page is written once, into memory of its length. The text of a proof is written, and then put behind its head.
///
/// # Errors
/// [`NoMemory`] where there isn't enough for the response and the text.
pub fn roster_page(
    alloc: Global,
    request: &Request,
    shown: Option<&Publication>,
    moment: u64,
) -> Result<Vec<u8>, NoMemory>
    requires route { AsksForRoster request.now.route }
    requires moment { moment < NO_DATE }
    ensures { IfOk result (λ bytes.
        (response : Response) × IsShown request.now.route (option_copied shown.entry) response × (bytes.items ≡ bytes_of response request.now.close request.now.bare moment)) }
{
    match &request.route {
        Route::RosterOf(grade) => names_page(alloc, request, *grade, shown, moment),
        Route::ProofOf(grade) => proof_page(alloc, request, *grade, shown, moment),
        _ => unreachable!(),
    }
}

fn names_page(
    alloc: Global,
    request: &Request,
    grade: Level,
    shown: Option<&Publication>,
    moment: u64,
) -> Result<Vec<u8>, NoMemory>
    requires { moment < NO_DATE }
    ensures { IfOk result (λ bytes. bytes.items ≡ bytes_of (roster_response grade (option_copied shown.entry)) request.now.close request.now.bare moment) }
{
    let Some(publication) = shown else {
        return found(alloc, request, &Body::NoRoster(grade), moment);
    };
    match publication.candidate.roster(grade) {
        Some(roster) => names_of(alloc, request, publication, roster, moment),
        None => failed(alloc, request, 404, "no grade", moment),
    }
}

/// The page of a roster of a publication.
fn names_of(
    alloc: Global,
    request: &Request,
    publication: &Publication,
    roster: &LevelRoster,
    moment: u64,
) -> Result<Vec<u8>, NoMemory>
    requires moment { moment < NO_DATE }
    requires sound { IsSound publication.now.candidate.graph roster.now.level (lists_of roster.now) }
    ensures { IfOk result (λ bytes. bytes.items ≡ bytes_of (roster_in roster.now.level publication.now (Some (lists_of roster.now))) request.now.close request.now.bare moment) }
{
    let body = Body::Roster(Roster {
        grade: roster.level,
        number: publication.number,
        revision: publication.revision,
        frozen: publication.candidate.frozen(),
        served: &roster.served,
    });
    found(alloc, request, &body, moment)
}

fn proof_page(
    alloc: Global,
    request: &Request,
    grade: Level,
    shown: Option<&Publication>,
    moment: u64,
) -> Result<Vec<u8>, NoMemory>
    requires { moment < NO_DATE }
    ensures { IfOk result (λ bytes.
        (response : Response) × IsProofResponse grade (option_copied shown.entry) response × (bytes.items ≡ bytes_of response request.now.close request.now.bare moment)) }
{
    let Some(publication) = shown else {
        return failed(alloc, request, 404, "no publication", moment);
    };
    match publication.candidate.roster(grade) {
        Some(roster) => proof_of(alloc, request, publication, roster, moment),
        None => failed(alloc, request, 404, "no grade", moment),
    }
}

/// The proof of a roster of a publication.
fn proof_of(
    alloc: Global,
    request: &Request,
    publication: &Publication,
    roster: &LevelRoster,
    moment: u64,
) -> Result<Vec<u8>, NoMemory>
    requires moment { moment < NO_DATE }
    requires sound { IsSound publication.now.candidate.graph roster.now.level (lists_of roster.now) }
    ensures { IfOk result (λ bytes.
        (response : Response) × IsProofIn roster.now.level publication.now (Some (lists_of roster.now)) response
        × (bytes.items ≡ bytes_of response request.now.close request.now.bare moment)) }
{
    let text = proof_text(alloc, publication.candidate.frozen(), roster)?;
    plain_text(alloc, request, &text, moment)
}

/// The response of a text as it is.
fn plain_text(
    alloc: Global,
    request: &Request,
    text: &[u8],
    moment: u64,
) -> Result<Vec<u8>, NoMemory>
    requires { moment < NO_DATE }
    ensures { IfOk result (λ bytes. bytes.items ≡ bytes_of (plain text.now) request.now.close request.now.bare moment) }
{
    let told = Head {
        status: 200,
        kind: Kind::Plain,
        location: None,
        cookie: None,
        close: request.close,
    };
    respond(alloc, &told, &Body::Text(text), request.bare, moment)
}
