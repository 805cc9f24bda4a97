// Why a line is not answered.
use refusal::Refusal;
use std::io;

#[derive(Clone, Copy)]
pub(crate) enum Fault {
    // It is no command, or its operands don't fit the buffers. It has changed nothing.
    BadLine,
    // The buffers are as the call left them.
    Refused(Refusal),
    // A write failed, which ends the script. The buffers are as the line's call left them.
    NotWritten(io::Error),
}

impl From<Refusal> for Fault {
    fn from(refusal: Refusal) -> Fault {
        Fault::Refused(refusal)
    }
}

impl From<io::Error> for Fault {
    fn from(error: io::Error) -> Fault {
        Fault::NotWritten(error)
    }
}
