// Numbers in bytes, of which the most significant stands first. Bytes behind the end count as 0.
ghost use Rattle.std.specs.Prelude.{◌≡◌, ◌<◌, ◌≤◌, ◌++◌, length, drop};
ghost use Rattle.base.specs.Bytes.{of_big_endian};
ghost use Rattle.replay_lists.specs.Words.{first_or_zeros};

// What stands from a place on: nothing, behind the end.
pub(crate) fn rest_of<T>(items: &[T], at: usize) -> &[T]
    ensures { result.now ≡ drop at items.now }
{
    &items[at.min(items.len())..]
}

// Puts some bytes over the first ones.
fn put_first(room: &mut [u8], bytes: &[u8])
    requires { length bytes.now ≤ length room.old }
    ensures { room.new ≡ bytes.now ++ drop (length bytes.now) room.old }
{
    room[..bytes.len()].copy_from_slice(bytes);
}

// Fewer than N bytes, with zeros behind them.
fn with_zeros<const N: usize>(bytes: &[u8]) -> [u8; N]
    requires { length bytes.now < N }
    ensures { result ≡ first_or_zeros N bytes.now }
{
    let mut all = [0; N];
    put_first(&mut all, bytes);
    all
}

// The first N bytes.
pub(crate) fn first_bytes<const N: usize>(bytes: &[u8]) -> [u8; N]
    ensures { result ≡ first_or_zeros N bytes.now }
{
    match bytes.first_chunk() {
        Some(all) => *all,
        None => with_zeros(bytes),
    }
}

/// The N bytes from a place on.
pub fn bytes_at<const N: usize>(bytes: &[u8], at: usize) -> [u8; N]
    ensures { result ≡ first_or_zeros N (drop at bytes.now) }
{
    first_bytes(rest_of(bytes, at))
}

/// The number in two of them.
pub fn number_at(bytes: &[u8], at: usize) -> usize
    ensures { result ≡ of_big_endian (first_or_zeros 2 (drop at bytes.now)) }
{
    usize::from(u16::from_be_bytes(bytes_at(bytes, at)))
}

/// The number in eight.
pub fn word_at(bytes: &[u8], at: usize) -> u64
    ensures { result ≡ of_big_endian (first_or_zeros 8 (drop at bytes.now)) }
{
    u64::from_be_bytes(bytes_at(bytes, at))
}
