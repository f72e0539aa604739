//! What happens to a site: acts and their replies, and the one history that they make, which contracts alone see.
#![tactic(auto)]

mod acts;
mod commands;
mod faults;
mod pasts;
mod queries;
mod replies;
mod views;

pub use acts::Act;
pub use commands::{Author, Command};
pub use faults::{FreezeFault, PublishFault};
pub use pasts::Past;
pub use queries::Query;
pub use replies::{Answer, Refusal, Reply};
pub use views::{
    ArticleHead, ArticleView, DiaryView, PersonView, PostView, ProjectView, StewardsView, View,
};
