// The weight distribution of a record as text.
#![tactic(auto)]

ghost use Rattle.std.specs.Prelude.{◌≡◌, true, [], ◌∷◌, ◌+◌, ◌*◌, ◌≤◌, ◌<◌, length, MatchResult};
ghost use Rattle.lists.specs.Numbers.{all_below};
ghost use Rattle.lists.specs.Padded.{zeros};
ghost use Rattle.generator.specs.Answers.{number};
ghost use Rattle.generator.specs.Records.{record_of};
ghost use Rattle.text.specs.Text.{ascii, line};
ghost use Rattle.text.specs.Writing.{OnPage};
ghost use Rattle.text.specs.Inner.Writer.{room, Writes};
ghost use Rattle.weights_text.specs.Weights.{count_line, count_lines, weights_for};

use generator::Refusal;
use records::read_record;
use text::{FewDigits, Writer};
use weight_counts::counts_accepted;

// The line of one weight: two numbers of at most five digits, a space and a line feed.
fn write_count(writer: &mut Writer, w: FewDigits, count: FewDigits)
    requires { 12 ≤ room writer.old }
    ensures text { Writes writer.old writer.new (count_line w.value count.value) }
    ensures room { room writer.old ≤ room writer.new + 12 }
{
    writer.number(w);
    writer.field(count);
    writer.byte(b'\n');
}

// The lines of all weights.
#[tactic(auto, using(lists::proofs::Numbers::below_at, text::proofs::Written::writing_start, text::proofs::Written::writing_row), unfolding(crate::specs::Weights::count_lines))]
fn write_counts(writer: &mut Writer, counts: &[u32])
    requires below { all_below 100000 counts.now ≡ true }
    requires few { length counts.now ≤ 256 }
    requires room { 12 * length counts.now ≤ room writer.old }
    ensures { Writes writer.old writer.new (count_lines counts.now) }
{
    for (w, count) in counts.iter().enumerate() {
        let w = FewDigits { value: w as u32 };
        let count = FewDigits { value: *count };
        write_count(writer, w, count);
    }
}

// The lines of a record: at most 256, of at most 12 bytes. Nothing is written where the call is turned away.
fn write_weights(writer: &mut Writer, rec: &[u8]) -> Result<(), Refusal>
    requires { 3072 ≤ room writer.old }
    ensures { MatchResult result (λ _. Writes writer.old writer.new (weights_for (record_of rec.now))) (λ e. Writes writer.old writer.new [] × (weights_for (record_of rec.now) ≡ line (ascii "refused") (number e ∷ []))) }
{
    let code = read_record(rec)?;
    let size = usize::from(code.header.n) + 1;
    let mut list = [0; 256];
    let counts = &mut list[..size];
    counts_accepted(code, counts)?;
    write_counts(writer, counts);
    Ok(())
}

// An empty page: zeros, with room for any distribution.
#[tactic(auto, unfolding(lists::specs::Padded::zeros))]
pub fn page() -> [u8; 3072]
    ensures zeros { result ≡ zeros 3072 }
    ensures long { 3072 ≡ length result }
{
    [0; 3072]
}

// Writes the lines of a record at the front of a page, or what turns it away, and gives their length (and no slice: see `written` of
// `Writer`). The page is lent, for the library has no heap.
pub fn weights(rec: &[u8], out: &mut [u8; 3072]) -> usize
    ensures { OnPage out.old out.new result (weights_for (record_of rec.now)) }
{
    let mut writer = Writer::new(out);
    if let Err(refusal) = write_weights(&mut writer, rec) {
        writer.line("refused", &[u8::from(refusal)]);
    }
    writer.written()
}
