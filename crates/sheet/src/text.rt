// Text that grows piece by piece, in a buffer of its own with room for N bytes; a contract sees the bytes that it has.
// The bytes are its own, and copied at the end: of a struct with a model a clause sees the value alone, and not what a borrowed buffer keeps behind it.
// `write!` promises nothing where it answers an Err, and these functions can't fail; an `ArrayVec` has no call that appends a slice and can't fail.
ghost use Rattle.std.specs.Prelude.{◌≡◌, [], ◌++◌, ◌+◌, ◌≤◌, length, drop};
ghost use Rattle.sheet.specs.Decimal.{decimal_text};
ghost use Rattle.sheet.specs.Text.{labelled};

use std::marker::Model;

#[derive(Drop)]
pub(crate) struct Text<const N: usize> {
    bytes: [u8; N],
    len: usize,
}

impl<const N: usize> Model for Text<N> {
    ghost use Rattle.std.specs.Prelude.{List, ℕ, ◌≤◌, take};

    ghost Value = { List ℕ };

    ghost view = { λ t. take t.len t.bytes };

    ghost invariant = { λ t. t.len ≤ N };
}

impl<const N: usize> Text<N> {
    pub(crate) fn new() -> Self
        ensures { result ≡ [] }
    {
        Text {
            bytes: [0; N],
            len: 0,
        }
    }

    // Puts a piece behind what there is.
    pub(crate) fn put(&mut self, piece: &[u8])
        requires { length self.old + length piece.now ≤ N }
        ensures { self.new ≡ self.old ++ piece.now }
    {
        let start = self.len;
        let end = start + piece.len();
        let bytes = &mut self.bytes[..];
        bytes[start..end].copy_from_slice(piece);
        self.len = end;
    }

    // A number in decimal.
    fn number(&mut self, n: u64)
        requires { length self.old + 20 ≤ N }
        ensures text { self.new ≡ self.old ++ decimal_text n }
        ensures size { length self.new ≤ length self.old + 20 }
    {
        let mut digits = itoa::Buffer::new();
        self.put(digits.format(n).as_bytes());
    }

    // A short word, then a number.
    pub(crate) fn labelled(&mut self, word: &[u8], n: u64)
        requires word { length word.now ≤ 12 }
        requires room { length self.old + 32 ≤ N }
        ensures text { self.new ≡ self.old ++ labelled word.now n }
        ensures size { length self.new ≤ length self.old + 32 }
    {
        self.put(word);
        self.number(n);
    }

    // Copies it to the start of a buffer, and answers how many bytes it has.
    pub(crate) fn copy_to(&self, out: &mut [u8; N]) -> usize
        ensures value { result ≡ length self.now }
        ensures out_after { out.new ≡ self.now ++ drop (length self.now) out.old }
        ensures upper_bound { result ≤ N }
    {
        let n = self.len;
        out[..n].copy_from_slice(&self.bytes[..n]);
        n
    }
}
