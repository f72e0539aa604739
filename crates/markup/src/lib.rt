//! Texts of members, made safe to stand in a page: markup of a few elements, and escaped text.
#![tactic(auto)]

mod cleaning;
mod elements;
mod escaping;
mod html;
mod opened;
mod tags;

pub use cleaning::{clean, escape};
pub use html::SafeHtml;
