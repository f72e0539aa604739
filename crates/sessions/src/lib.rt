//! Who is logged in: passwords as digests, and live sessions by token.
#![tactic(auto)]

mod live;
mod secrets;
mod tokens;

pub use live::{LoginFault, MOST_SESSIONS, Sessions};
pub use secrets::secret_of;
pub use tokens::Token;
