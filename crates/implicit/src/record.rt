// The record's own tests, and what it says of the pixels and of the queue.
// Document 01, "Numbers of refusal", "Record damage"; the Rust's state is private and has no such tests.
ghost use Rattle.std.specs.Prelude.{◌≡◌};
ghost use Rattle.interval.specs.Bounds.{legal_interval};
ghost use Rattle.implicit.specs.Record.{pixel_count, sound_last, sound_counts, sound_ring, sound_use, sound_record, queue_empty, put_last};

use crate::state::State;
use coordinate::INDEX_LIMIT;
use decide::{Chosen, is_legal_chosen};
use interval::{Interval, is_same};
use queue::{Last, whole_line};

// Whether a record is not damaged, for a ring of so many bytes.
pub(crate) fn is_sound(len: usize, s: State) -> bool
    ensures { result ≡ sound_record len s }
{
    is_legal_chosen(s.chosen)
        & has_sound_counts(s)
        & has_sound_ring(len, s)
        & has_sound_use(s)
        & is_sound_last(s.front)
        & is_sound_last(s.back)
}

fn has_sound_counts(s: State) -> bool
    ensures { result ≡ sound_counts s }
{
    (s.taken <= s.queued) & (s.queued <= 4294967296)
}

fn has_sound_ring(len: usize, s: State) -> bool
    ensures { result ≡ sound_ring len s }
{
    (s.len == len) & (s.head < len) & (s.used <= len)
}

// Whether no byte is used exactly if no block is left.
pub(crate) fn has_sound_use(s: State) -> bool
    ensures { result ≡ sound_use s }
{
    (s.used == 0) == (s.taken == s.queued)
}

fn is_sound_last(l: Last) -> bool
    ensures { result ≡ sound_last l }
{
    (l.x < INDEX_LIMIT)
        & (l.y < INDEX_LIMIT)
        & is_legal_kept(l.m, true)
        & is_legal_kept(l.n, true)
        & is_legal_kept(l.theta, true)
        & is_legal_kept(l.t, false)
}

// Whether a remembered interval is legal; that of a parameter that is not in use, the whole line, is seen at once. The same lines stand in `decide`'s
// damage.rt: shared, they would be a public function that promises no more than `interval::is_legal` beside it.
fn is_legal_kept(x: Interval, integer: bool) -> bool
    ensures { result ≡ legal_interval x integer }
{
    if is_same(x, whole_line()) {
        return true;
    }
    interval::is_legal(x, integer)
}

// How many pixels a picture has.
pub(crate) fn pixel_count(p: Chosen) -> usize
    ensures { result ≡ pixel_count p }
{
    p.width as usize * p.height as usize
}

// Whether no block and no byte is left.
pub(crate) fn is_empty(s: State) -> bool
    ensures { result ≡ queue_empty s }
{
    (s.taken == s.queued) & (s.used == 0)
}

// The remembered values with their zeros put.
pub(crate) fn put_last(l: Last) -> Last
    ensures { result ≡ put_last l }
{
    Last {
        x: l.x,
        y: l.y,
        m: interval::put(l.m),
        n: interval::put(l.n),
        theta: interval::put(l.theta),
        t: interval::put(l.t),
    }
}
