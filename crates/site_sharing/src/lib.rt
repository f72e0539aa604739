//! That sites and their seats may be handed to other threads, and shared by them.
#![tactic(auto)]

use outside::Keeper;
use turn_book::{Seat, Site};

fn sent<T: Send>() {}

fn shared<T: Sync>() {}

/// A seat may be handed to another thread.
pub fn seats_are_sent<K: Keeper + Send>() {
    sent::<Seat<K>>();
}

/// A site may be handed to another thread.
pub fn sites_are_sent<K: Keeper + Send>() {
    sent::<Site<K>>();
}

/// Threads may share a site.
pub fn sites_are_shared<K: Keeper + Send>() {
    shared::<Site<K>>();
}
