ghost use Rattle.std.specs.Prelude.{◌≡◌};
ghost use Rattle.commands.specs.Outcomes.{status_of, text_of};

use crate::status::Status;

/// An answer to what was read: the status, and the text to write.
#[derive(Debug, Drop)]
pub struct Answer {
    pub status: Status,
    pub text: Vec<u8>,
}

/// What a run comes to, before anything is written.
#[derive(Debug, Drop)]
pub enum Outcome {
    /// The whole input was read, and this is the answer to it.
    Answered(Answer),
    /// The words are no command.
    Misused,
    /// The input has more bytes than the command takes.
    TooLong,
    /// A read failed.
    Unread,
    /// Memory ran out.
    OutOfMemory,
}

impl Outcome {
    /// Its status.
    pub fn status(&self) -> Status
        ensures { result ≡ status_of self.now }
    {
        match self {
            Outcome::Answered(answer) => answer.status,
            Outcome::Misused => Status::Usage,
            Outcome::TooLong => Status::InputFull,
            Outcome::Unread => Status::ReadFault,
            Outcome::OutOfMemory => Status::NoMemory,
        }
    }

    /// What is to be written; nothing where memory ran out.
    pub fn text(&self) -> &[u8]
        ensures { result.now ≡ text_of self.now }
    {
        match self {
            Outcome::Answered(answer) => &answer.text,
            Outcome::Misused => {
                b"usage: virgule check | rosters LEVEL | audit LEVEL | script [--db FILE] | drill N\n"
            }
            Outcome::TooLong => b"input too long\n",
            Outcome::Unread => b"read fault\n",
            Outcome::OutOfMemory => b"",
        }
    }
}
