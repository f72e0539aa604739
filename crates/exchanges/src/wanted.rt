//! What a request wants of a site.

ghost use Rattle.std.specs.Prelude.{◌≡◌, is_some, IfOk};
ghost use Rattle.exchanges.specs.Asked.{is_login};
ghost use Rattle.exchanges.specs.inner.Wanted.{Wants};

use crate::asked::{fixed_status, query_of};
use crate::commands::act_of;
use http_requests::Request;
use sessions::Token;
use site_history::{Act, Query};
use std::alloc::Global;
use trust_types::NoMemory;

/// What a request wants of a site.
#[derive(Drop)]
pub(crate) enum Wanted {
    /// Nothing: it is answered by a page of this status.
    Status(u16),
    View(Query),
    Act(Act),
    /// The roster of a grade, or its proof.
    Roster,
}

pub(crate) fn wanted_by(
    alloc: Global,
    request: &Request,
    token: &Option<Token>,
) -> Result<Wanted, NoMemory>
    requires { is_some token.now ≡ is_login request.now.route }
    ensures { IfOk result (Wants request.now token.now) }
{
    if let Some(status) = fixed_status(request) {
        return Ok(Wanted::Status(status));
    }
    if let Some(query) = query_of(alloc, &request.route)? {
        return Ok(Wanted::View(query));
    }
    match act_of(alloc, request, token)? {
        Some(act) => Ok(Wanted::Act(act)),
        None => Ok(Wanted::Roster),
    }
}
