// The head of a sheet: sides, variable set, budget and ranges; and whether the program takes the sheet.
// Document 01, "Program and values" and 14 of "Numbers of refusal". Most significant bits first.
ghost use Rattle.std.specs.Prelude.{◌≡◌, ◌+◌, ◌*◌, ◌≤◌, ◌<◌, length, drop, MatchOption, IfOk};
ghost use Rattle.sheet.specs.Layout.{range_bytes, places_in, bounds_in, range_in, ranges_in, too_large};
ghost use Rattle.sheet.specs.ChartComputed.{order_answer};

use decide::{Chosen, is_legal_side};
use implicit::Ranges;
use interval::{Interval, float_of};
use queue::{Direction, is_used, whole_line};
use refusal::Refusal;

// What a sheet asks for, and where its tape begins.
#[derive(Clone, Copy)]
pub(crate) struct Order {
    pub chosen: Chosen,
    pub budget: u32,
    pub ranges: Ranges,
    pub tape: usize,
}

// Bounds as they stand, legal or not, and the bytes behind them.
fn split_bounds(s: &[u8]) -> Option<(Interval, &[u8])>
    ensures { MatchOption result (length s.now < 16) (λ p. (p.0 ≡ bounds_in s.now 0) × (p.1.now ≡ drop 16 s.now) × (length p.1.now + 16 ≡ length s.now)) }
{
    let (lower, rest) = s.split_first_chunk::<8>()?;
    let (upper, rest) = rest.split_first_chunk::<8>()?;
    let lower = float_of(u64::from_be_bytes(*lower));
    let upper = float_of(u64::from_be_bytes(*upper));
    Some((Interval { lower, upper }, rest))
}

// A parameter's range, or the whole line for one that is not used, and the bytes behind it.
fn split_range(s: &[u8], set: u8, d: Direction) -> Option<(Interval, &[u8])>
    ensures { MatchOption result (length s.now < range_bytes set d)
        (λ p. (p.0 ≡ range_in s.now set d 0) × (p.1.now ≡ drop (range_bytes set d) s.now) × (length p.1.now + range_bytes set d ≡ length s.now)) }
{
    if is_used(set, d) {
        split_bounds(s)
    } else {
        Some((whole_line(), s))
    }
}

// The ranges of a sheet, which stand behind nine bytes, and the tape behind them.
fn split_ranges(s: &[u8], set: u8) -> Option<(Ranges, &[u8])>
    requires { 9 ≤ length s.now }
    ensures { MatchOption result (length s.now < (places_in set).tape)
        (λ p. (p.0 ≡ ranges_in s.now set) × (p.1.now ≡ drop (places_in set).tape s.now) × (length p.1.now + (places_in set).tape ≡ length s.now)) }
{
    let (_, rest) = s.split_at(9);
    let (m, rest) = split_range(rest, set, Direction::M)?;
    let (n, rest) = split_range(rest, set, Direction::N)?;
    let (theta, rest) = split_range(rest, set, Direction::Theta)?;
    let (t, tape) = split_range(rest, set, Direction::T)?;
    Some((Ranges { m, n, theta, t }, tape))
}

// Legal sides with over 4096 pixels.
fn is_too_large(width: u32, height: u32) -> bool
    requires { (width < 65536) × (height < 65536) }
    ensures { result ≡ too_large width height }
{
    is_legal_side(width) & is_legal_side(height) & (4096 < width * height)
}

// What a sheet asks for, if the program takes it.
pub(crate) fn read_order(s: &[u8]) -> Result<Order, Refusal>
    ensures value { result ≡ order_answer s.now }
    ensures in_bounds { IfOk result (λ o. o.tape ≤ length s.now) }
{
    let [w1, w0, h1, h0, uses, b3, b2, b1, b0, ..] = s else {
        return Err(Refusal::Sheet);
    };
    let width = u32::from(u16::from_be_bytes([*w1, *w0]));
    let height = u32::from(u16::from_be_bytes([*h1, *h0]));
    let set = *uses / 4;
    let Some((ranges, tape)) = split_ranges(s, set) else {
        return Err(Refusal::Sheet);
    };
    let taken = (*uses % 4 == 0) & (s.len() <= 16384) & !is_too_large(width, height);
    if !taken {
        return Err(Refusal::Sheet);
    }
    let chosen = Chosen {
        width,
        height,
        set,
        reserved1: 0,
        reserved2: 0,
        reserved3: 0,
    };
    Ok(Order {
        chosen,
        budget: u32::from_be_bytes([*b3, *b2, *b1, *b0]),
        ranges,
        tape: s.len() - tape.len(),
    })
}
