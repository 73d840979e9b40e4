// The ring: a lent byte buffer, the position of its first used byte (head) and the number of bytes used.
// What it holds lies in two stretches: the older from the head on, the newer from byte 0 on.
ghost use Rattle.std.specs.Prelude.{◌≡◌, ◌+◌, ◌^◌, ◌≤◌, ◌<◌, length, get_or, slice_get, take};
ghost use Rattle.std.proofs.lemmas.List.Edits.{sets};
ghost use Rattle.queue.specs.Ring.{part_of, behind, part_place, fits_ring, older_stretch, newer_stretch, stored, wrapped};
ghost use Rattle.queue.specs.RingComputed.{bytes};

// The two stretches of what a ring holds.
#[derive(Clone, Copy)]
pub struct Stretches<'a> {
    pub older: &'a [u8],
    pub newer: &'a [u8],
}

impl<'a> Stretches<'a> {
    // Those of a ring whose head and use fit it.
    pub(crate) fn of(ring: &'a [u8], head: usize, used: usize) -> Stretches<'a>
        requires { (head ≤ length ring.now) × (used ≤ length ring.now) }
        ensures older { result.older.now ≡ older_stretch ring.now head used }
        ensures newer { result.newer.now ≡ newer_stretch ring.now head used }
        ensures older_place { result.older.ref_ptr ≡ behind ring.entry.ref_ptr head }
        ensures newer_place { result.newer.ref_ptr ≡ ring.entry.ref_ptr }
    {
        let room = ring.len() - head;
        if used <= room {
            return Stretches {
                older: &ring[head..head + used],
                newer: &ring[..0],
            };
        }
        Stretches {
            older: &ring[head..],
            newer: &ring[..used - room],
        }
    }

    // How many bytes they have.
    pub(crate) fn len(self) -> usize
        ensures { result ≡ length (bytes self.entry) }
    {
        self.older.len() + self.newer.len()
    }

    // The bytes at an offset: a part of one of the two, to its end. The contract says which bytes, and where they lie.
    pub fn part(self, at: usize) -> &'a [u8]
        ensures bytes { result.now ≡ part_of self.entry.older.now self.entry.newer.now at }
        ensures place { result.ref_ptr ≡ part_place self.entry.older.ref_ptr (length self.entry.older.now) self.entry.newer.ref_ptr (length self.entry.newer.now) at }
    {
        if at < self.older.len() {
            return &self.older[at..];
        }
        let off = at - self.older.len();
        if off < self.newer.len() {
            return &self.newer[off..];
        }
        let end = self.newer.len();
        &self.newer[end..]
    }

    // The byte at an offset, if it is not past both.
    pub(crate) fn get(self, at: usize) -> Option<u8>
        ensures { result ≡ slice_get (bytes self.entry) at }
    {
        self.part(at).first().copied()
    }

    // The byte at an offset that is not past both.
    pub(crate) fn byte_at(self, at: usize) -> u8
        requires { at < length (bytes self) }
        ensures { result ≡ get_or (bytes self.entry) at 0 }
    {
        self.part(at)[0]
    }
}

// Whether head and use fit a ring of so many bytes.
pub(crate) fn fits_ring(len: usize, head: usize, used: usize) -> bool
    ensures { result ≡ fits_ring len head used }
{
    (head < len) & (used <= len)
}

// The position that lies a number of bytes after another, round the end.
pub(crate) fn move_on(len: usize, from: usize, count: usize) -> usize
    requires { (from < len) × (count ≤ len) × (len < 2 ^ 63) }
    ensures value { result ≡ wrapped len (from + count) }
    ensures upper_bound { result < len }
{
    let end = from + count;
    if end < len { end } else { end - len }
}

// Stores bytes from a position on, round the end.
pub(crate) fn store(ring: &mut [u8], from: usize, source: &[u8])
    requires { (from < length ring.old) × (length source.now ≤ length ring.old) }
    ensures { ring.new ≡ stored ring.old from source.now }
{
    let room = ring.len() - from;
    if source.len() <= room {
        ring[from..from + source.len()].copy_from_slice(source);
        return;
    }
    ring[from..].copy_from_slice(&source[..room]);
    ring[..source.len() - room].copy_from_slice(&source[room..]);
}

// Stores the first `count` bytes of `source` in a row. Byte by byte: `copy_from_slice` between two buffers of a caller is a call of the C library's `memmove`,
// which the archive asks of nobody.
fn store_straight(ring: &mut [u8], from: usize, source: &[u8], count: usize)
    requires { (from + count ≤ length ring.old) × (count ≤ length source.now) }
    ensures { ring.new ≡ sets ring.old from (take count source.now) }
{
    for i in 0..count {
        ring[from + i] = source[i];
    }
}

// Stores both stretches from byte 0 on, one behind the other.
pub(crate) fn store_stretches(ring: &mut [u8], held: Stretches<'_>)
    requires { length (bytes held) ≤ length ring.old }
    ensures { ring.new ≡ sets ring.old 0 (bytes held.entry) }
{
    let Stretches { older, newer } = held;
    store_straight(ring, 0, older, older.len());
    store_straight(ring, older.len(), newer, newer.len());
}
