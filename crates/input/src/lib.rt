// An input, read to its end or until the buffer is full. A read that fails is told apart from the input's end.

#![tactic(auto)]

ghost use Rattle.std.specs.Prelude.{length};
ghost use Rattle.input.specs.Reading.{ReadWithin, ReadInOrder};

use std::io;
use std::io::Read;

// Reads until the buffer is full, the input ends or a read fails. It gives how many bytes it read, at the start of the buffer, or the error of the read.
pub fn read_input<R: Read>(reader: &mut R, buffer: &mut [u8]) -> io::Result<usize>
    ensures within { ReadWithin (length buffer.new) result }
    ensures in_order { ReadInOrder (R.remaining reader.old) (R.remaining reader.new) buffer.new result }
{
    // A loop of its own: std's `read_exact` doesn't tell how many bytes an input that ends early gave, and its `read_to_end` fills a vector.
    let mut length = 0;
    while length < buffer.len() {
        match reader.read(&mut buffer[length..])? {
            0 => break,
            more => length += more,
        }
    }
    Ok(length)
}

#[cfg(test)]
mod tests {
    use super::*;
    use std::io::ErrorKind;

    // Gives at most so many bytes at once, and then fails.
    #[derive(Drop)]
    struct Failing<'a> {
        bytes: &'a [u8],
        at_once: usize,
    }

    impl Read for Failing<'_> {
        fn read(&mut self, buffer: &mut [u8]) -> io::Result<usize> {
            if self.bytes.is_empty() {
                return Err(io::Error::from(ErrorKind::Other));
            }
            let room = self.at_once.min(buffer.len());
            self.bytes.read(&mut buffer[..room])
        }
    }

    #[test]
    fn an_end_and_a_failure_are_told_apart(rt: HostRuntime) -> io::Result<()> {
        let mut buffer = [0u8; 5];
        let mut ending: &[u8] = b"bill";
        let length = read_input(&mut ending, &mut buffer)?;
        assert_eq!(rt; &buffer[..length], b"bill".as_slice());
        let mut failing = Failing {
            bytes: b"total",
            at_once: 2,
        };
        // It is full before the failure.
        assert!(rt; matches!(read_input(&mut failing, &mut buffer), Ok(5)));
        assert_eq!(rt; buffer, *b"total");
        failing.bytes = b"clai";
        assert!(rt;
            matches!(read_input(&mut failing, &mut buffer), Err(error) if error.kind() == ErrorKind::Other)
        );
        Ok(())
    }
}
