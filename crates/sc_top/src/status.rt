//! How a request ends.
ghost use Rattle.std.specs.Prelude.{◌≡◌};
ghost use Rattle.sc_top.specs.Codes.{code_of};
ghost use Rattle.sc_top.specs.Endings.{status_at};

/// How a request ended. The program's exit status is its `code`.
#[derive(Clone, Copy, Debug, PartialEq, Eq)]
pub enum Status {
    /// The whole output stands, and is ended.
    Done,
    /// The source is refused.
    Refused,
    /// The words ask for nothing.
    Usage,
    /// The shelf failed.
    ReadFailed,
    /// No memory was found.
    Memory,
    /// A limit is passed.
    Limit,
    /// A schedule was checked, and is not legal. The whole output stands, and is ended.
    NotLegal,
    /// The sink of the output failed.
    WriteFailed,
}

impl Status {
    /// The exit status of the program, from 0 to 7 in the order of the variants.
    pub fn code(&self) -> u8
        ensures { result ≡ code_of self.now }
    {
        match self {
            Status::Done => 0,
            Status::Refused => 1,
            Status::Usage => 2,
            Status::ReadFailed => 3,
            Status::Memory => 4,
            Status::Limit => 5,
            Status::NotLegal => 6,
            Status::WriteFailed => 7,
        }
    }
}

/// How a request ends whose whole output stands.
#[derive(Clone, Copy, Debug, PartialEq, Eq)]
pub enum Ending {
    Done,
    NotLegal,
}

impl Ending {
    pub(crate) fn status(self) -> Status
        ensures { result ≡ status_at self }
    {
        match self {
            Ending::Done => Status::Done,
            Ending::NotLegal => Status::NotLegal,
        }
    }
}
