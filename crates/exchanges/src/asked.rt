//! What a request asks a site to show.

ghost use Rattle.std.specs.Prelude.{◌≡◌, IfOk};
ghost use Rattle.exchanges.specs.Asked.{fixed_status, query_of};

use http_requests::{Request, Route};
use site_history::Query;
use std::alloc::Global;
use trust_types::NoMemory;

/// The status under which nothing of the site is shown.
pub(crate) fn fixed_status(request: &Request) -> Option<u16>
    ensures { result ≡ fixed_status request.now }
{
    if let Some(status) = request.refusal() {
        return Some(status);
    }
    match request.route {
        Route::Account => Some(200),
        _ => None,
    }
}

/// What a page shows of the site. A name in it is copied.
pub(crate) fn query_of(alloc: Global, route: &Route) -> Result<Option<Query>, NoMemory>
    ensures { IfOk result (λ found. found ≡ query_of route.now) }
{
    match route {
        Route::Front => Ok(Some(Query::Front)),
        Route::Stewards => Ok(Some(Query::Stewards)),
        Route::PersonOf(name) => Ok(Some(Query::Person(name.copy(alloc)?))),
        Route::DiaryOf(name) => Ok(Some(Query::Diary(name.copy(alloc)?))),
        Route::ProjectOf(name) => Ok(Some(Query::Project(name.copy(alloc)?))),
        Route::ArticleOf(article) => Ok(Some(Query::Article(*article))),
        _ => Ok(None),
    }
}
