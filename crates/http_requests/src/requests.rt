use crate::routes::Route;
use sessions::Token;
use trust_types::Text;

/// A request: what it asks for, by whom, and how it is to be answered.
#[derive(Drop)]
pub struct Request {
    pub route: Route,
    /// The name and the token of the session that the cookies name; it needn't live.
    pub session: Option<(Text, Token)>,
    /// Whether the link is to be closed after the answer.
    pub close: bool,
    /// Whether the answer is to come without its body.
    pub bare: bool,
}

impl Request {
    ghost use Rattle.std.specs.Prelude.{◌≡◌};
    ghost use Rattle.http_requests.specs.Refusals.{refusal};

    /// The status with which it is refused before the site is asked, the first that applies (RFC 9110, section 15): 501 for its method, 404 for
    /// its path, 400 for its form, 403 where only a session may ask for it and its cookies name none.
    pub fn refusal(&self) -> Option<u16>
        ensures { result ≡ refusal self.now }
    {
        if let Some(status) = self.route.unmet() {
            return Some(status);
        }
        if self.route.needs_session() && self.session.is_none() {
            return Some(403);
        }
        None
    }
}
