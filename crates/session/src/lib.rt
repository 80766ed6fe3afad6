// A session of the program: the whole input to the whole output.

#![tactic(auto)]

mod replies;

ghost use Rattle.std.specs.Prelude.{◌≡◌, ◌+◌, ◌*◌, ◌≤◌, length};
ghost use Rattle.model.specs.Calls.{reply_without_numbers};
ghost use Rattle.text.specs.Commands.{command_of};
ghost use Rattle.text.specs.Lines.{line_text, WroteWithin};
ghost use Rattle.session.specs.Replies.{holding, reply, next};
ghost use Rattle.session.specs.Transcript.{commands_of, exchanges, printed, transcript, output_per_byte, most_output};

use calls::replies::reply_without_numbers;
use layout::LEDGER_LENGTH;
use limits::BOOK_LENGTH;
use refusals::Refusal;
use replies::reply;
use text::reading::{SHORTEST_LINE, read_command};
use text::writing::{LONGEST_LINE, write_line};

// The most bytes that the program reads.
pub const MOST_INPUT: usize = 65536;

// No line printed is longer than this many bytes for each byte of the line read, its line feed included: the longest line for the
// shortest that can be read, rounded up.
const OUTPUT_PER_BYTE: usize = (LONGEST_LINE + SHORTEST_LINE) / (SHORTEST_LINE + 1);

// So no output is longer.
pub const MOST_OUTPUT: usize = OUTPUT_PER_BYTE * MOST_INPUT;

// The territory of the ledger at first: Great Britain.
const GREAT_BRITAIN: u32 = 0;

// One line, without its line feed: the line printed for it is written from `at` on, a place beside the buffer, as in `write_line`.
fn reply_to_line(
    line: &[u8],
    ledger: &mut [u8],
    book: &mut [u32; BOOK_LENGTH],
    out: &mut [u8],
    at: usize,
) -> usize
    requires { at + output_per_byte * (length line.now + 1) ≤ length out.old }
    ensures wrote_within { WroteWithin (output_per_byte * (length line.now + 1)) out.old out.new at result (line_text (reply (holding ledger.old book.old) (command_of line.now))) }
    ensures book_after { holding ledger.new book.new ≡ next (holding ledger.old book.old) (command_of line.now) }
{
    let said = reply(read_command(line), ledger, book);
    write_line(out, at, said)
}

// Writes the line of what can't be read from `at` on.
fn write_unreadable(out: &mut [u8], at: usize) -> usize
    requires { at + 10 ≤ length out.old }
    ensures { WroteWithin 10 out.old out.new at result (line_text (reply_without_numbers 1)) }
{
    write_line(
        out,
        at,
        reply_without_numbers(u32::from(Refusal::Unreadable)),
    )
}

// All lines of a text.
fn reply_to_lines(
    input: &[u8],
    ledger: &mut [u8],
    book: &mut [u32; BOOK_LENGTH],
    out: &mut [u8],
) -> usize
    requires { output_per_byte * length input.now ≤ length out.old }
    ensures { WroteWithin (output_per_byte * length input.now) out.old out.new 0 result (printed (exchanges (holding ledger.old book.old) (commands_of input.now))) }
{
    let mut written: usize = 0;
    for line in input.split_inclusive(|byte| *byte == b'\n') {
        let Some(line) = line.strip_suffix(b"\n") else {
            return write_unreadable(out, written);
        };
        written = reply_to_line(line, ledger, book, out, written);
    }
    written
}

// The whole input: what is printed of it is written to the start of `out`, which may be longer than any output, and the number of its bytes
// is answered.
pub fn session(input: &[u8], out: &mut [u8]) -> usize
    requires { most_output ≤ length out.old }
    ensures { WroteWithin most_output out.old out.new 0 result (transcript input.now) }
{
    if MOST_INPUT < input.len() {
        return write_unreadable(out, 0);
    }
    let mut ledger = [0u8; LEDGER_LENGTH];
    let mut book = [0u32; BOOK_LENGTH];
    edits::fresh(&mut ledger, GREAT_BRITAIN);
    reply_to_lines(input, &mut ledger, &mut book, out)
}
