// The program: it reads standard input, and writes what the session prints of it. Where it can't, it says so on standard error.

#![tactic(auto)]

ghost use Rattle.std.specs.Prelude.{◌≡◌, ◌+◌, ◌<◌, ◌≤◌, length, OnOk, OnErr};
ghost use Rattle.std.specs.Io.KnownBytes.{Appends};
ghost use Rattle.session.specs.Transcript.{most_input, most_output};
ghost use Rattle.ebds.specs.Run.{AppendsStart, PrintsTranscript};

use input::read_input;
use session::{MOST_INPUT, MOST_OUTPUT};
use std::fmt::{Display, Formatter};
use std::io::{ErrorKind, Read, Write};
use std::process::ExitCode;
use std::{fmt, io};

// The status that a shell gives of a program which a closed pipe has ended.
const CLOSED_PIPE: u8 = 128 + 13;

// What the program couldn't do.
#[derive(Drop)]
pub enum Failure {
    // Read the input.
    Reading(io::Error),
    // Write the output.
    Writing(io::Error),
}

impl Display for Failure {
    fn fmt<W: fmt::Write>(&self, f: &mut Formatter<W>) -> fmt::Result {
        f.write_str(match self {
            Failure::Reading(_) => "standard input can't be read",
            Failure::Writing(_) => "standard output can't be written",
        })
    }
}

// Room for one byte more than the program reads, so that a longer input is seen.
const INPUT_ROOM: usize = MOST_INPUT + 1;

// A function of its own: where `main` makes arrays of these sizes itself, its check runs out of stack.
fn room<const N: usize>() -> [u8; N]
    ensures { length result ≡ N }
{
    [0; N]
}

// Writes all of the bytes, or stops at the first write that takes none or fails.
fn write_output<W: Write>(writer: &mut W, bytes: &[u8]) -> io::Result<()>
    ensures all { OnOk result (Appends (W.contents writer.old) (W.contents writer.new) bytes.now) }
    ensures start { OnErr result (AppendsStart (W.contents writer.old) (W.contents writer.new) bytes.now) }
{
    // A loop of its own: std's `write_all` doesn't tell what is written where it fails.
    let mut rest = bytes;
    while !rest.is_empty() {
        match writer.write(rest)? {
            0 => return Err(io::Error::from(ErrorKind::WriteZero)),
            taken => rest = &rest[taken..],
        }
    }
    Ok(())
}

// Reads the input, and writes what the session prints of it. Of an input that can't be read to its end nothing is obeyed.
pub fn run<R: Read, W: Write>(
    reader: &mut R,
    writer: &mut W,
    input: &mut [u8],
    out: &mut [u8],
) -> Result<(), Failure>
    requires longer_input_seen { most_input < length input.old }
    requires output_fits { most_output ≤ length out.old }
    ensures { PrintsTranscript (R.remaining reader.old) (W.contents writer.old) (W.contents writer.new) result }
{
    let length = read_input(reader, input).map_err(Failure::Reading)?;
    let written = session::session(&input[..length], out);
    write_output(writer, &out[..written]).map_err(Failure::Writing)
}

// Where standard input or output fails it says so; where whoever read the output has closed the pipe it ends without a word.
fn main(rt: HostRuntime) -> ExitCode {
    let mut input = room::<INPUT_ROOM>();
    let mut out = room::<MOST_OUTPUT>();
    match run(&mut rt.stdin(), &mut rt.stdout(), &mut input, &mut out) {
        Ok(()) => ExitCode::SUCCESS,
        Err(Failure::Writing(error)) if error.kind() == ErrorKind::BrokenPipe => {
            ExitCode::from(CLOSED_PIPE)
        }
        Err(failure) => {
            let _ = eprintln!(rt; "ebds: {failure}");
            ExitCode::SUCCESS
        }
    }
}
