ghost use Rattle.std.specs.Prelude.{◌≡◌};
ghost use Rattle.cg_session.specs.StatusCode.{code_of};

/// How a session ended, and what it wrote.
#[derive(Clone, Copy, Debug, PartialEq, Eq)]
pub enum Status {
    /// The whole output was written, or the summary of a sample, and no line is refused.
    Done,
    /// The whole output was written, or the summary of a sample, and at least one line is refused.
    Refused,
    /// The words are refused. The usage line was written, and nothing was read.
    Usage,
    /// The source failed, and there is no sample. Nothing was written.
    Read,
    /// The sink failed. A front of the output, or of the usage line if the words are refused, was written.
    Write,
    /// Memory ran out. Nothing was written.
    Memory,
    /// The session has more than 1,048,576 bytes, more than 4,096 answered lines, or more of them than the table has
    /// cells. Nothing was written.
    TooLong,
}

impl Status {
    /// The exit status.
    pub fn code(self) -> u8
        ensures { result ≡ code_of self }
    {
        match self {
            Status::Done => 0,
            Status::Refused => 1,
            Status::Usage => 2,
            Status::Read => 3,
            Status::Write => 4,
            Status::Memory => 5,
            Status::TooLong => 6,
        }
    }
}
