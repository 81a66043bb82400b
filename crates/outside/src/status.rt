ghost use Rattle.std.specs.Prelude.{◌≡◌};
ghost use Rattle.outside.specs.Status.{code_of};

/// How a run of the program ends.
#[derive(Clone, Copy, Debug, PartialEq, Eq)]
pub enum Status {
    /// It did what was asked.
    Done,
    /// Its words or its input were refused, and the output says why.
    Refused,
    /// Memory ran out.
    Memory,
    /// The input failed.
    Source,
    /// The output failed.
    Sink,
}

impl Status {
    /// The number that the program answers.
    pub fn code(self) -> u8
        ensures { result ≡ code_of self }
    {
        match self {
            Status::Done => 0,
            Status::Refused => 2,
            Status::Memory => 3,
            Status::Source => 4,
            Status::Sink => 5,
        }
    }
}
