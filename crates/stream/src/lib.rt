// Reading and writing streams of bytes, which need not give or take them all at once.
#![tactic(auto)]

ghost use Rattle.std.specs.Prelude.{◌≡◌, ℕ, ◌+◌, ◌≤◌, ◌<◌, length, take, drop, IfOk, OnOk, OnErr};
ghost use Rattle.std.specs.Io.KnownBytes.{Appends, Consumes, IsAtEnd, Keeps};

use std::io;
use std::io::{Error, ErrorKind, Read, Write};

// One read, into a buffer behind the bytes that it has.
fn read_more<R: Read>(from: &mut R, buf: &mut [u8], at: usize) -> io::Result<usize>
    requires { at < length buf.old }
    ensures front { take at buf.new ≡ take at buf.old }
    ensures in_bounds { IfOk result (λ n. at + n ≤ length buf.new) }
    ensures bytes { IfOk result (λ n. Consumes (R.remaining from.old) (R.remaining from.new) (take n (drop at buf.new))) }
    ensures end { IfOk result (λ n. n ≡ 0 → IsAtEnd (R.remaining from.new)) }
    ensures err { OnErr result (Keeps (R.remaining from.old) (R.remaining from.new)) }
{
    from.read(&mut buf[at..])
}

// Reads until the buffer is full or the stream ends, and answers how many bytes stand at the buffer's start. Fewer than there is room for mean the
// stream's end, and no failure: a read that fails, also one that a signal interrupts, is answered with its error. No byte is lost then: those that the
// stream gave before stand at the buffer's start.
pub fn read_full<R: Read>(from: &mut R, buf: &mut [u8]) -> io::Result<usize>
    ensures in_bounds { IfOk result (λ n. n ≤ length buf.new) }
    ensures bytes { IfOk result (λ n. Consumes (R.remaining from.old) (R.remaining from.new) (take n buf.new)) }
    ensures end { IfOk result (λ n. n < length buf.new → IsAtEnd (R.remaining from.new)) }
    ensures err { OnErr result ((n : ℕ) × (n < length buf.new) × Consumes (R.remaining from.old) (R.remaining from.new) (take n buf.new)) }
{
    // `read_exact` takes the stream's end for a failure, and says less of the bytes that it then has read.
    let mut done = 0;
    while done < buf.len() {
        let n = read_more(from, buf, done)?;
        if n == 0 {
            break;
        }
        done += n;
    }
    Ok(done)
}

// One write, of the bytes of a buffer from a place on, which takes at least one.
fn write_more<W: Write>(to: &mut W, buf: &[u8], at: usize) -> io::Result<usize>
    requires { at < length buf.now }
    ensures in_bounds { IfOk result (λ n. at + n ≤ length buf.now) }
    ensures some { IfOk result (λ n. 0 < n) }
    ensures bytes { IfOk result (λ n. Appends (W.contents to.old) (W.contents to.new) (take n (drop at buf.now))) }
    ensures err { OnErr result (Appends (W.contents to.old) (W.contents to.new) (take 0 buf.now)) }
{
    let n = to.write(&buf[at..])?;
    if n == 0 {
        return Err(Error::from(ErrorKind::WriteZero));
    }
    Ok(n)
}

// Writes all of a buffer. A write that fails, also one that a signal interrupts or that takes nothing, is answered with its error; the stream has then
// taken only some of the buffer's first bytes.
pub fn write_full<W: Write>(to: &mut W, buf: &[u8]) -> io::Result<()>
    ensures ok { OnOk result (Appends (W.contents to.old) (W.contents to.new) buf.now) }
    ensures err { OnErr result ((n : ℕ) × (n < length buf.now) × Appends (W.contents to.old) (W.contents to.new) (take n buf.now)) }
{
    // `write_all` says nothing of what a failed write has taken.
    let mut done = 0;
    while done < buf.len() {
        let n = write_more(to, buf, done)?;
        done += n;
    }
    Ok(())
}

#[cfg(test)]
mod tests {
    use super::*;
    use std::test::Fail;

    // Gives a byte 7 at each read, so many times, and then ends or fails.
    #[derive(Drop)]
    struct Drip {
        left: u8,
        fails: bool,
    }

    impl Read for Drip {
        fn read(&mut self, buf: &mut [u8]) -> io::Result<usize> {
            if buf.is_empty() {
                return Ok(0);
            }
            if self.left > 0 {
                self.left -= 1;
                buf[0] = 7;
                return Ok(1);
            }
            if self.fails {
                return Err(Error::from(ErrorKind::BrokenPipe));
            }
            Ok(0)
        }
    }

    #[test]
    fn reads_on_to_the_end(rt: HostRuntime) -> Result<(), Fail> {
        let mut buf = [0u8; 5];
        let mut drip = Drip {
            left: 3,
            fails: false,
        };
        let n = read_full(&mut drip, &mut buf)?;
        assert_eq!(rt; n, 3);
        assert_eq!(rt; buf, [7, 7, 7, 0, 0]);
        Ok(())
    }

    #[test]
    fn stops_where_the_buffer_is_full(rt: HostRuntime) -> Result<(), Fail> {
        let mut buf = [0u8; 5];
        let mut drip = Drip {
            left: 9,
            fails: true,
        };
        let n = read_full(&mut drip, &mut buf)?;
        assert_eq!(rt; n, 5);
        assert_eq!(rt; drip.left, 4);
        Ok(())
    }

    // Takes a byte at each write, so many, and then nothing.
    #[derive(Drop)]
    struct Narrow {
        room: u8,
        last: u8,
    }

    impl Write for Narrow {
        fn write(&mut self, buf: &[u8]) -> io::Result<usize> {
            if self.room == 0 || buf.is_empty() {
                return Ok(0);
            }
            self.room -= 1;
            self.last = buf[0];
            Ok(1)
        }

        fn flush(&mut self) -> io::Result<()> {
            Ok(())
        }
    }

    #[test]
    fn writes_on_to_the_end(rt: HostRuntime) -> Result<(), Fail> {
        let mut narrow = Narrow { room: 4, last: 0 };
        write_full(&mut narrow, b"abc")?;
        assert_eq!(rt; narrow.room, 1);
        assert_eq!(rt; narrow.last, b'c');
        Ok(())
    }

    #[test]
    fn answers_a_write_that_takes_nothing(rt: HostRuntime) {
        let mut narrow = Narrow { room: 2, last: 0 };
        let failed = write_full(&mut narrow, b"abc");
        assert!(rt; failed.is_err_and(|e| e.kind() == ErrorKind::WriteZero));
        assert_eq!(rt; narrow.last, b'b');
    }

    #[test]
    fn answers_a_failed_read_with_its_error(rt: HostRuntime) -> Result<(), Fail> {
        let mut buf = [0u8; 5];
        let mut drip = Drip {
            left: 3,
            fails: true,
        };
        let failed = read_full(&mut drip, &mut buf);
        assert!(rt; failed.is_err_and(|e| e.kind() == ErrorKind::BrokenPipe));
        assert_eq!(rt; buf, [7, 7, 7, 0, 0]);
        Ok(())
    }
}
