//! The answers in which nothing of a site is shown.

ghost use Rattle.std.specs.Prelude.{◌≡◌, ◌<◌, Contains, IfOk, if◌then◌else◌, ◌==◌};
ghost use Rattle.html_pages.specs.Dates.{NO_DATE};
ghost use Rattle.http_pages.specs.Fixed.{fault_text, fixed_statuses, fixed_response};
ghost use Rattle.html_pages.specs.Pages.{account_page, error_page};
ghost use Rattle.http_pages.specs.Responses.{bytes_of};
ghost use Rattle.html_pages.specs.Bodies.{body_of};

use crate::responses::respond_html;
use html_pages::Body;
use std::alloc::Global;
use trust_types::NoMemory;

fn fault_text(status: u16) -> &'static str
    ensures { result.now ≡ fault_text status }
{
    match status {
        400 => "bad request",
        403 => "no session",
        404 => "not found",
        413 => "too long",
        431 => "head too long",
        _ => "not implemented",
    }
}

fn fixed_body(status: u16) -> Body<'static>
    ensures { body_of result ≡ (if status == 200 then account_page else error_page (fault_text status)) }
{
    match status {
        200 => Body::Account,
        _ => Body::Error(fault_text(status)),
    }
}

/// The response of a status in which nothing of the site is shown: 200 with the forms to join and to log in; 400, 403, 404, 413, 431 and 501
/// with the reason. `close` says that the link is to be closed, and with `bare` the body isn't sent; its length is told all the same. It is
/// written once, into memory of its length.
///
/// # Errors
/// [`NoMemory`] where there isn't enough for the response.
pub fn fixed_page(
    alloc: Global,
    status: u16,
    close: bool,
    bare: bool,
    moment: u64,
) -> Result<Vec<u8>, NoMemory>
    requires status { Contains fixed_statuses status }
    requires moment { moment < NO_DATE }
    ensures { IfOk result (λ bytes. bytes.items ≡ bytes_of (fixed_response status) close bare moment) }
{
    respond_html(alloc, status, &fixed_body(status), close, bare, moment)
}
