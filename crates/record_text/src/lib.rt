// A record for n nodes of which k are needed that carries bytes, and what it costs, as text.
#![tactic(auto)]

ghost use Rattle.std.specs.Prelude.{◌≡◌, Ok, Err, ◌+◌, ◌≤◌, ◌<◌, length, take, MatchResult};
ghost use Rattle.generator.specs.Answers.{number};
ghost use Rattle.generator.specs.Records.{record_of};
ghost use Rattle.carrying.specs.Carrying.{group_words};
ghost use Rattle.text.specs.Writing.{OnPage};
ghost use Rattle.text.specs.Inner.Writer.{room, Writes};
ghost use Rattle.record_text.specs.Records.{stored_bytes, image_bytes, costs_of, costs_for, record_asked, record_for};

use choose::choose_record;
use field::Field;
use generator::{Code, Refusal};
use records::{high_reads, low_reads, read_record};
use text::Writer;
pub use text::page;

// The words that go behind one mask over a prime. `WordPrime` of carry has it too; for this one number the program would stand on all that
// carries.
#[tactic(auto, unfolding(carrying::specs::Carrying::group_words))]
fn group_words(p: u32) -> u16
    requires { p < 65536 }
    ensures { (result ≡ group_words p) × (result ≤ 255) }
{
    let most = 61440 / (65536 - p);
    most.min(256).saturating_sub(1) as u16
}

// So many symbols' bytes are stored_bytes for so many bytes of an image.
fn storage_of(code: Code) -> (u16, u16)
    ensures { (result.0 ≡ stored_bytes code.header) × (result.1 ≡ image_bytes code.header) }
{
    let n = u16::from(code.header.n);
    let k = u16::from(code.header.k);
    match code.header.field {
        Field::Binary(_) => (n, k),
        Field::Prime(f) => {
            let m = group_words(f.p);
            (n * (m + 1), k * m)
        }
    }
}

// What a code costs: lines of at most 11, 14, 20 and 12 bytes.
fn write_costs(writer: &mut Writer, code: Code)
    requires { 57 ≤ room writer.old }
    ensures { Writes writer.old writer.new (costs_of code.header) }
{
    let writes = code.dimensions().distance();
    let low = low_reads(code);
    let high = high_reads(code);
    let (symbols, bytes) = storage_of(code);
    writer.line("writes", &[writes]);
    writer.line("reads", &[low, high]);
    writer.line("storage", &[symbols, bytes]);
    writer.line("rebuild", &[code.header.k]);
}

// A record of at most seven bytes, and what it costs.
fn write_record(writer: &mut Writer, rec: &[u8])
    requires { (length rec.now ≤ 7) × (92 ≤ room writer.old) }
    ensures { Writes writer.old writer.new (record_for (Ok rec.now)) }
{
    writer.line("record", rec);
    if let Ok(code) = read_record(rec) {
        write_costs(writer, code);
    }
}

// The record that two bytes ask for, n and k, at the front of the room.
fn chosen(given: &[u8], room: &mut [u8; 7]) -> Result<u8, Refusal>
    ensures { MatchResult result (λ size. (size ≤ 7) × (Ok (take size room.new) ≡ record_asked given.now)) (λ e. Err (number e) ≡ record_asked given.now) }
{
    match given {
        [n, k] => choose_record(u32::from(*n), u32::from(*k), room),
        _ => Err(Refusal::Size),
    }
}

// Writes the record that two bytes ask for and what it costs at the front of a page, or what turns them away, and gives the length of that
// (and no slice: see `written` of `Writer`). The page is lent, for the library has no heap.
pub fn record(given: &[u8], out: &mut [u8; 92]) -> usize
    ensures { OnPage out.old out.new result (record_for (record_asked given.now)) }
{
    let mut writer = Writer::new(out);
    let mut room = [0; 7];
    match chosen(given, &mut room) {
        Ok(size) => write_record(&mut writer, &room[..usize::from(size)]),
        Err(refusal) => writer.line("refused", &[u8::from(refusal)]),
    }
    writer.written()
}
