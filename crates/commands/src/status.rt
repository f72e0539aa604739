ghost use Rattle.std.specs.Prelude.{◌≡◌};
ghost use Rattle.commands.specs.Outcomes.{code_of};

/// How a run ended.
#[derive(Clone, Copy, Debug, PartialEq, Eq)]
pub enum Status {
    /// All was done.
    Done = 0,
    /// `check` gave a verdict other than `greatest`.
    No = 1,
    /// The words are no command.
    Usage = 2,
    /// The input is no text of its form.
    Text = 3,
    /// The input has more bytes than the command takes.
    InputFull = 4,
    /// A read failed.
    ReadFault = 5,
    /// A write failed. It takes the place of any other status.
    WriteFault = 6,
    /// A call on the keeper of a site's rows failed, and no site was opened.
    KeeperFault = 7,
    /// A row of a site's keeper doesn't continue those before it.
    BadRow = 8,
    /// Memory ran out.
    NoMemory = 9,
    /// A server's port failed.
    PortFault = 10,
    /// A row of a site's keeper passes a limit.
    RowsFull = 11,
}

impl Status {
    /// The number by which it is known outside: that with which the process ends.
    pub fn code(self) -> u8
        ensures { result ≡ code_of self }
    {
        self as u8
    }
}
