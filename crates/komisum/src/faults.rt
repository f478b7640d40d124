//! Why the program could not write its line.

ghost use Rattle.std.specs.Prelude.{◌≡◌};
ghost use Rattle.komisum.specs.Ending.{fault_text};

/// Why the whole line was not written and flushed.
#[derive(Drop)]
pub enum Fault {
    /// A read returned an error.
    Read,
    /// The input is longer than the call accepts.
    TooLong,
    /// A write or a flush returned an error, or a write accepted no byte.
    Write,
}

impl Fault {
    /// Returns the message alone. The program prints it only as a part of its lines, which `ending`
    /// has whole, so that one write takes each. So only tests call this.
    pub fn text(&self) -> &'static str
        ensures { result.now ≡ fault_text self.now }
    {
        match self {
            Fault::Read => "read failed",
            Fault::TooLong => "too long",
            Fault::Write => "write failed",
        }
    }
}
