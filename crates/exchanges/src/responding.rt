//! The bytes of a response.

ghost use Rattle.std.specs.Prelude.{◌≡◌, IfOk};
ghost use Rattle.trust_types.specs.Kept.{IsMoment};
ghost use Rattle.exchanges.specs.Answering.{CanBeSent, content_of};
ghost use Rattle.exchanges.specs.Exchanges.{IsSent};

use crate::answering::Page;
use http_pages::{answer_page, fixed_page, roster_page, view_page};
use http_requests::Request;
use roster_cell::Cache;
use sessions::Token;
use std::alloc::Global;
use trust_types::NoMemory;

/// The response to a request that shows a page, where the token was drawn for it, at a moment. A roster is that of the publication in the cache. It is
/// written once, into memory of its length; the text of a proof is written, and then put behind its head.
///
/// # Errors
/// [`NoMemory`] where there isn't enough for the response, and for the texts in it.
pub fn respond(
    alloc: Global,
    request: &Request,
    page: &Page,
    token: &Option<Token>,
    cache: &Cache,
    moment: u64,
) -> Result<Vec<u8>, NoMemory>
    requires page { CanBeSent request.now page.now }
    requires moment { IsMoment moment }
    ensures { IfOk result (λ bytes. IsSent request.now token.now (content_of page.now cache.now) moment bytes.items) }
{
    match page {
        Page::Act(answer) => answer_page(alloc, request, answer, token.as_ref(), moment),
        Page::View(view) => view_page(alloc, request, view, moment),
        Page::Roster => roster_page(alloc, request, cache.publication(), moment),
        Page::Status(status) => fixed_page(alloc, *status, request.close, request.bare, moment),
    }
}
