// Reading the list: its next entry, and changes of the tables. A change is a number of stretches; a stretch says what it changes (0 the table of bytes, else
// that of words and how many bytes each value has), the place of its first value in two bytes, the number of its values, and the values; all with the higher
// byte first.
ghost use Rattle.std.specs.Prelude.{◌≡◌, ℕ, IfOk};
ghost use Rattle.replay_histories.specs.Entry.{entry_of, IsNextByte};

use crate::tables::Tables;
use replay_lists::bytes::bytes_at;
use replay_lists::list::next_bytes;
use std::io;
use std::io::Read;

// An entry of the list: a call by its number, the end of a part, or the list's.
#[derive(Clone, Copy)]
pub(crate) enum Entry {
    Call(u8),
    PartEnd,
    End,
}

impl From<u8> for Entry {
    ghost from_gives = { λ code r. r ≡ entry_of code };

    fn from(code: u8) -> Entry {
        match code {
            0 => Entry::End,
            255 => Entry::PartEnd,
            number => Entry::Call(number),
        }
    }
}

// The next byte, 0 at the end of the list.
fn next_byte<R: Read>(list: &mut R) -> io::Result<u8>
    ensures { IfOk result (IsNextByte (R.remaining list.old) (R.remaining list.new)) }
{
    let [byte] = next_bytes::<1, _>(list)?;
    Ok(byte)
}

// The entry that the next byte stands for.
pub(crate) fn next_entry<R: Read>(list: &mut R) -> io::Result<Entry>
    ensures { IfOk result (λ entry. (byte : ℕ) × IsNextByte (R.remaining list.old) (R.remaining list.new) byte × (entry ≡ entry_of byte)) }
{
    Ok(Entry::from(next_byte(list)?))
}

// The next bytes as a number, of which the last eight count.
fn next_word(list: &mut impl Read, size: u8) -> io::Result<u64> {
    let mut bytes = [0u8; 263];
    let size = usize::from(size);
    stream::read_full(list, &mut bytes[8..8 + size])?;
    Ok(u64::from_be_bytes(bytes_at(&bytes, size)))
}

fn read_stretch(list: &mut impl Read, tables: &mut Tables) -> io::Result<()> {
    let [size, high, low, count] = next_bytes::<4, _>(list)?;
    let from = usize::from(u16::from_be_bytes([high, low]));
    for at in from..from + usize::from(count) {
        if size == 0 {
            tables.put_byte(at, next_byte(list)?);
        } else {
            tables.put(at, next_word(list, size)?);
        }
    }
    Ok(())
}

// The next change of the tables.
pub(crate) fn change(list: &mut impl Read, tables: &mut Tables) -> io::Result<()> {
    for _ in 0..next_byte(list)? {
        read_stretch(list, tables)?;
    }
    Ok(())
}

// The title of a part, which the list has as a length byte and so many bytes.
pub(crate) fn say_title(rt: &impl Print, list: &mut impl Read) -> io::Result<()> {
    let mut buffer = [0u8; 256];
    let title = &mut buffer[..usize::from(next_byte(list)?)];
    stream::read_full(list, title)?;
    rt.write_all(title)
}
