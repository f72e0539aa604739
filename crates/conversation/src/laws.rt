//! The law of conversations, the contract of a function that does nothing.

ghost use Rattle.conversation.specs.Laws.{AnswersWhole};

/// Where a client sends whole requests and nothing else, fewer than a link may have, of which none but the last asks to close, they are answered, each in
/// its turn, and the conversation ends as [`Why::Closed`](crate::Why::Closed), unless memory ran out or a fault was counted.
pub fn answers_whole()
    ensures { AnswersWhole }
{}
