// Reading a buffer full, from any reader.
#![tactic(auto)]

ghost use Rattle.std.specs.Prelude.{◌≡◌, ◌<◌, ◌≤◌, length, take, OnOk};
ghost use Rattle.std.specs.Io.KnownBytes.{Consumes, IsAtEnd};

use std::io;
use std::io::Read;

// Reads until the buffer is full, the input ends or a read fails: how many bytes came, which are at the start of the buffer, and the error of the
// read that failed. On an empty buffer it makes no call. What a reader leaves behind the bytes that it gave is not said.
pub fn read_full<R: Read>(from: &mut R, buf: &mut [u8]) -> (usize, io::Result<()>)
    ensures inside { result.0 ≤ length buf.new }
    ensures long { result.0 ≡ length (take result.0 buf.new) }
    ensures bytes { Consumes (R.remaining from.old) (R.remaining from.new) (take result.0 buf.new) }
    ensures end { OnOk result.1 (result.0 < length buf.new → IsAtEnd (R.remaining from.new)) }
{
    // Not std's `read_exact`, which promises little after a failed read. The count stands beside the error, since then too some bytes came.
    let mut done = 0;
    while done < buf.len() {
        match from.read(&mut buf[done..]) {
            Ok(0) => return (done, Ok(())),
            Ok(n) => done += n,
            Err(e) => return (done, Err(e)),
        }
    }
    (done, Ok(()))
}

#[cfg(test)]
mod tests {
    use super::*;
    use std::io::ErrorKind;
    use std::test::Fail;

    // Gives at most three bytes a read, and fails once its reads are used up.
    #[derive(Drop)]
    struct Halting<'a> {
        bytes: &'a [u8],
        reads: u8,
    }

    impl Read for Halting<'_> {
        fn read(&mut self, buf: &mut [u8]) -> io::Result<usize> {
            if self.reads == 0 {
                return Err(io::Error::from(ErrorKind::ConnectionReset));
            }
            self.reads -= 1;
            let n = self.bytes.len().min(buf.len()).min(3);
            buf[..n].copy_from_slice(&self.bytes[..n]);
            self.bytes = &self.bytes[n..];
            Ok(n)
        }
    }

    #[test]
    fn fills_by_short_reads(rt: HostRuntime) -> Result<(), Fail> {
        let mut from = Halting {
            bytes: b"abcdefghij",
            reads: 9,
        };
        let mut buf = [0u8; 7];
        let (got, end) = read_full(&mut from, &mut buf);
        end?;
        assert_eq!(rt; got, 7);
        assert!(rt; &buf[..] == &b"abcdefg"[..]);
        assert!(rt; from.bytes == &b"hij"[..]);
        Ok(())
    }

    #[test]
    fn stops_at_the_end(rt: HostRuntime) -> Result<(), Fail> {
        let mut from = Halting {
            bytes: b"abcd",
            reads: 9,
        };
        let mut buf = [7u8; 6];
        let (got, end) = read_full(&mut from, &mut buf);
        end?;
        assert_eq!(rt; got, 4);
        assert!(rt; &buf[..] == &b"abcd\x07\x07"[..]);
        Ok(())
    }

    #[test]
    fn keeps_what_came_before_a_failure(rt: HostRuntime) {
        let mut from = Halting {
            bytes: b"abcdefghij",
            reads: 2,
        };
        let mut buf = [0u8; 10];
        let (got, end) = read_full(&mut from, &mut buf);
        assert_eq!(rt; got, 6);
        assert!(rt; &buf[..6] == &b"abcdef"[..]);
        assert!(rt; end.is_err());
    }

    #[test]
    fn reads_nothing_into_no_room(rt: HostRuntime) -> Result<(), Fail> {
        let mut from = Halting {
            bytes: b"a",
            reads: 0,
        };
        let (got, end) = read_full(&mut from, &mut []);
        end?;
        assert_eq!(rt; got, 0);
        Ok(())
    }
}
