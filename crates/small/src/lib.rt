// Small numbers: the code of a number below 2^56 in one to eight bytes, written and read.
// specs/Small.antt draws the code and says what each function answers.
#![tactic(auto)]

ghost use Rattle.std.specs.Prelude.{◌≡◌, ◌≤◌, length};
ghost use Rattle.base.specs.Bytes.{of_little_endian};
ghost use Rattle.small.specs.Small.{tail_of, code_of, read_small};

use refusal::Refusal;

// A number's code: the head byte, then the `count` low bytes of `tail`, lowest first.
#[derive(Clone, Copy, Debug, PartialEq, Eq)]
pub struct Code {
    pub head: u8,
    pub tail: u64,
    pub count: usize,
}

// What stands at the front of some bytes: a number, and how many bytes its code takes.
#[derive(Clone, Copy, Debug, PartialEq, Eq)]
pub struct Number {
    pub x: u64,
    pub count: usize,
}

// The shortest code of a number, handed back rather than stored: there is no refusal for a short buffer.
#[tactic(auto, using(crate::proofs::Writing::code_rules), unfolding(crate::specs::Small::code_of))]
pub fn write_small(x: u64) -> Result<Code, Refusal>
    ensures { result ≡ code_of x }
{
    let zeros = tail_bytes(x)?;
    Ok(Code {
        head: (((2 * x + 1) << zeros) % 256) as u8,
        tail: x >> (7 - zeros),
        count: zeros as usize,
    })
}

// The number of tail bytes, by range.
#[tactic(auto, using(std::proofs::lemmas::Bool::Decides::nat_tests), unfolding(crate::specs::Small::tail_of))]
fn tail_bytes(x: u64) -> Result<u32, Refusal>
    ensures { result ≡ tail_of x }
{
    match x {
        0..=0x7f => Ok(0),
        0x80..=0x3fff => Ok(1),
        0x4000..=0x1fffff => Ok(2),
        0x200000..=0xfffffff => Ok(3),
        0x10000000..=0x7ffffffff => Ok(4),
        0x800000000..=0x3ffffffffff => Ok(5),
        0x40000000000..=0x1ffffffffffff => Ok(6),
        0x2000000000000..=0xffffffffffffff => Ok(7),
        _ => Err(Refusal::TooLarge),
    }
}

// The number whose code stands at the front of `s`; a code may be longer than its number needs.
#[tactic(auto, unfolding(crate::specs::Small::read_small, crate::specs::Small::read_behind))]
pub fn read_small(s: &[u8]) -> Result<Number, Refusal>
    ensures { result ≡ read_small s.now }
{
    let (head, rest) = s.split_first().ok_or(Refusal::EndsEarly)?;
    if *head == 0 {
        return Err(Refusal::HeadZero);
    }
    let zeros = head.trailing_zeros();
    let tail = rest.get(..zeros as usize).ok_or(Refusal::EndsEarly)?;
    Ok(Number {
        x: (u64::from(*head) >> (zeros + 1)) + (read_tail(tail) << (7 - zeros)),
        count: zeros as usize + 1,
    })
}

// The number of a tail's bytes.
fn read_tail(s: &[u8]) -> u64
    requires { length s.now ≤ 8 }
    ensures { result ≡ of_little_endian s.now }
{
    s.iter().rfold(0, |tail, b| (tail << 8) | u64::from(*b))
}
