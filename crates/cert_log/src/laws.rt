//! What holds of the certificates that stand, the contract of a function that does nothing.

ghost use Rattle.cert_log.specs.Standing.{StandingCanStand};

/// Certificates that stand can stand beside one another, where each of those given is between two of the accounts.
pub fn standing_can_stand()
    ensures { StandingCanStand }
{}
