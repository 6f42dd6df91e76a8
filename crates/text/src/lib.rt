// Texts of words and numbers, written one after another on a page that is lent.
#![tactic(auto)]

ghost use Rattle.std.specs.Prelude.{◌≡◌, [], ◌∷◌, ◌+◌, ◌*◌, ◌≤◌, ◌<◌, length, map};
ghost use Rattle.lists.specs.Padded.{zeros};
ghost use Rattle.text.specs.Text.{decimal, field, fields, line};

mod number;

use itoa::Buffer;
pub use number::{FewDigits, Number};

// An empty page: zeros. A caller lends it, for the library has no heap.
#[tactic(auto, unfolding(lists::specs::Padded::zeros))]
pub fn page<const N: usize>() -> [u8; N]
    ensures zeros { result ≡ zeros N }
    ensures long { N ≡ length result }
{
    [0; N]
}

// A page, and how many of its bytes are written. Each method but `written` writes its text behind what is written.
// There is no `fmt::Write` here: what `write!` leaves is known only where it succeeds, and these writes cannot fail.
#[derive(Drop)]
pub struct Writer<'a> {
    page: &'a mut [u8],
    end: usize,
    ghost inside: { end ≤ length page.now },
}

impl<'a> Writer<'a> {
    ghost use Rattle.text.specs.Inner.Writer.{room, Begins, Writes};

    #[tactic(auto, unfolding(crate::specs::Inner::Writer::room))]
    pub fn new(page: &'a mut [u8]) -> Writer<'a>
        ensures begins { Begins page.entry 0 result }
        ensures room { room result ≡ length page.old }
    {
        Writer { page, end: 0 }
    }

    // How many bytes are written. They are not lent as a slice: where a part of a page goes on into the result, no promise about the page
    // after the call gets a proof (`follows_so` does not for a page that is an array), and what the rest holds would be unknown.
    pub fn written(&self) -> usize
        ensures { result ≡ self.now.end }
    {
        self.end
    }

    pub fn byte(&mut self, b: u8)
        requires { 1 ≤ room self.old }
        ensures { Writes self.old self.new (b ∷ []) }
    {
        self.bytes(&[b]);
    }

    // Any bytes.
    #[tactic(auto, unfolding(crate::specs::Inner::Writer::room))]
    pub fn bytes(&mut self, bytes: &[u8])
        requires { length bytes.now ≤ room self.old }
        ensures { Writes self.old self.new bytes.now }
    {
        let next = self.end + bytes.len();
        self.page[self.end..next].copy_from_slice(bytes);
        self.end = next;
    }

    pub fn word(&mut self, word: &str)
        requires { length word.now ≤ room self.old }
        ensures { Writes self.old self.new word.now }
    {
        self.bytes(word.as_bytes());
    }

    // A number in base ten, by the kit's `itoa`: no number is taken apart here.
    #[tactic(auto, using(crate::proofs::Digits::decimal_same))]
    fn digits(&mut self, x: u32)
        requires small { x < 100000 }
        requires room { length (decimal x) ≤ room self.old }
        ensures { Writes self.old self.new (decimal x) }
    {
        let mut buffer = Buffer::new();
        self.word(buffer.format(x));
    }

    // A number of a type whose values have few digits.
    pub fn number<N: Number>(&mut self, x: N)
        requires { N.digits ≤ room self.old }
        ensures text { Writes self.old self.new (decimal (N.value x)) }
        ensures room { room self.old ≤ room self.new + N.digits }
    {
        self.digits(x.to_u32());
    }

    // A space and a number.
    pub fn field<N: Number>(&mut self, x: N)
        requires { N.digits + 1 ≤ room self.old }
        ensures text { Writes self.old self.new (field (N.value x)) }
        ensures room { room self.old ≤ room self.new + N.digits + 1 }
    {
        self.byte(b' ');
        self.number(x);
    }

    // The fields of a line, and its line feed.
    pub fn fields<N: Number>(&mut self, xs: &[N])
        requires { (N.digits + 1) * length xs.now + 1 ≤ room self.old }
        ensures text { Writes self.old self.new (fields (map N.value xs.now)) }
        ensures room { room self.old ≤ room self.new + (N.digits + 1) * length xs.now + 1 }
    {
        for x in xs {
            self.field(*x);
        }
        self.byte(b'\n');
    }

    // A word and fields.
    pub fn line<N: Number>(&mut self, word: &str, xs: &[N])
        requires { length word.now + (N.digits + 1) * length xs.now + 1 ≤ room self.old }
        ensures text { Writes self.old self.new (line word.now (map N.value xs.now)) }
        ensures room { room self.old
            ≤ room self.new + length word.now + (N.digits + 1) * length xs.now + 1 }
    {
        self.bytes_line(word.as_bytes(), xs);
    }

    // The same with any bytes for the word. It stands beside `line`, since a `&str` asks more of callers: that the bytes are UTF-8.
    pub fn bytes_line<N: Number>(&mut self, bytes: &[u8], xs: &[N])
        requires { length bytes.now + (N.digits + 1) * length xs.now + 1 ≤ room self.old }
        ensures text { Writes self.old self.new (line bytes.now (map N.value xs.now)) }
        ensures room { room self.old
            ≤ room self.new + length bytes.now + (N.digits + 1) * length xs.now + 1 }
    {
        self.bytes(bytes);
        self.fields(xs);
    }
}
