// Writing: an answer as a line.
ghost use Rattle.std.specs.Prelude.{◌≡◌, ◌+◌, ◌≤◌, length};
ghost use Rattle.model.specs.Calls.{answer_numbers};
ghost use Rattle.text.specs.Lines.{WroteWithin, line_text, line_room};

use arrayvec::ArrayString;
use itoa::Buffer;
use model::{ANSWER_NUMBERS, Reply};

// A space and a number of 64 bits take at most this many bytes.
const NUMBER_ROOM: usize = 21;

// No line is longer: `ok`, the numbers and the line feed.
pub const LONGEST_LINE: usize = 2 + NUMBER_ROOM * ANSWER_NUMBERS + 1;

// The line of a reply. It is not by `write!`, whose result may be an error: no clause says that it is none where there is room.
fn line_text(reply: Reply) -> ArrayString<LONGEST_LINE>
    requires { reply.count ≤ answer_numbers }
    ensures text { result.bytes ≡ line_text reply }
    ensures within { length result.bytes ≤ line_room reply }
{
    let mut line = ArrayString::new();
    let mut digits = Buffer::new();
    if reply.refused == 0 {
        line.push_str("ok");
        for number in &reply.numbers[..reply.count] {
            line.push_str(" ");
            line.push_str(digits.format(*number));
        }
    } else {
        line.push_str("refused ");
        line.push_str(digits.format(reply.refused));
    }
    line.push_str("\n");
    line
}

// Writes the line of a reply from `at` on, and gives the place after it.
// The place stands beside the buffer: a struct of both would owe, in each function, a clause that it still holds the same buffer.
pub fn write_line(out: &mut [u8], at: usize, reply: Reply) -> usize
    requires { (reply.count ≤ answer_numbers) × (at + line_room reply ≤ length out.old) }
    ensures { WroteWithin (line_room reply) out.old out.new at result (line_text reply) }
{
    let line = line_text(reply);
    let end = at + line.len();
    out[at..end].copy_from_slice(line.as_bytes());
    end
}
