//! What is open to be written.
use std::io::{self, Write};

/// A file that is open to be written, or a standard stream.
#[derive(Drop)]
pub enum Opened<F, O, E> {
    /// A file.
    File(F),
    /// Standard output.
    Output(O),
    /// Standard error.
    Errors(E),
}

impl<F: Write, O: Write, E: Write> Write for Opened<F, O, E> {
    ghost use Rattle.process.specs.OutputCalls.{bytes_of};

    ghost contents = { λ opened. bytes_of F.contents O.contents E.contents opened };

    fn write(&mut self, bytes: &[u8]) -> io::Result<usize> {
        match self {
            Opened::File(file) => file.write(bytes),
            Opened::Output(stdout) => stdout.write(bytes),
            Opened::Errors(stderr) => stderr.write(bytes),
        }
    }

    fn flush(&mut self) -> io::Result<()> {
        match self {
            Opened::File(file) => file.flush(),
            Opened::Output(stdout) => stdout.flush(),
            Opened::Errors(stderr) => stderr.flush(),
        }
    }
}
