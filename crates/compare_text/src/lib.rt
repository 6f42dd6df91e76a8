// The comparison of the plain and the balanced layout as text.
#![tactic(auto)]

mod bits;

ghost use Rattle.std.specs.Prelude.{◌≡◌, ◌+◌, ◌*◌, ◌≤◌, ◌<◌, length, Ok};
ghost use Rattle.lists.specs.Padded.{zeros};
ghost use Rattle.generator.specs.Records.{record_of, distance};
ghost use Rattle.generator.specs.Comparison.{plain_greatest, ComparedRecord};
ghost use Rattle.text.specs.Writing.{OnPage};
ghost use Rattle.text.specs.Inner.Writer.{room, Writes};
ghost use Rattle.compare_text.specs.Comparison.{cost_line, whole_part, traces_part, least_part, rebuild_line, RebuildPriced, comparison_for};

use bits::{least_bits, trace_bits};
use field::Field;
use generator::{Code, Header};
use records::{high_reads, low_reads, read_record};
use text::{FewDigits, Writer};

// The greatest reads of a node of the plain layout.
fn plain_greatest(h: Header) -> u8
    ensures { result ≡ plain_greatest h }
{
    let n = h.n;
    let k = h.k;
    if k < n { k } else { 1 }
}

// A line of costs: words and the writes, then the reads.
fn write_cost(writer: &mut Writer, words: &str, writes: u8, reads: &[u8])
    requires { length words.now + 4 * length reads.now + 11 ≤ room writer.old }
    ensures text { Writes writer.old writer.new (cost_line words.now writes reads.now) }
    ensures room { room writer.old ≤ room writer.new + length words.now + 4 * length reads.now + 11 }
{
    writer.word(words);
    writer.field(writes);
    writer.line(" reads", reads);
}

// The bits of k whole symbols.
#[tactic(auto, using(field::proofs::Widths::bytes_range))]
fn write_whole(writer: &mut Writer, code: Code)
    requires { 18 ≤ room writer.old }
    ensures text { Writes writer.old writer.new (whole_part code.header) }
    ensures room { room writer.old ≤ room writer.new + 18 }
{
    let Header { field, k, .. } = code.header;
    writer.word("rebuild bits");
    let bits = FewDigits {
        value: 8 * field.width() as u32 * u32::from(k),
    };
    writer.field(bits);
}

// The bits of a repair by traces, where there is one.
fn write_traces(writer: &mut Writer, code: Code)
    requires { 13 ≤ room writer.old }
    ensures text { Writes writer.old writer.new (traces_part code.header) }
    ensures room { room writer.old ≤ room writer.new + 13 }
{
    if let Some(b) = trace_bits(code) {
        writer.word(" traces");
        let bits = FewDigits {
            value: b * u32::from(code.header.n - 1),
        };
        writer.field(bits);
    }
}

// The least bits, over the field of 256 elements.
fn write_least(writer: &mut Writer, code: Code)
    requires { 12 ≤ room writer.old }
    ensures text { Writes writer.old writer.new (least_part code.header) }
    ensures room { room writer.old ≤ room writer.new + 12 }
{
    let Header { field, n, k, .. } = code.header;
    if let Field::Binary(_) = field {
        writer.word(" least");
        let bits = FewDigits {
            value: least_bits(u32::from(n - 1), u32::from(k)),
        };
        writer.field(bits);
    }
}

// The line of a rebuild, where the other nodes give a node back.
fn write_rebuild(writer: &mut Writer, code: Code)
    requires { 44 ≤ room writer.old }
    ensures { Writes writer.old writer.new (rebuild_line code.header) }
{
    if code.header.k < code.header.n {
        write_whole(writer, code);
        write_traces(writer, code);
        write_least(writer, code);
        writer.byte(b'\n');
    }
}

// The comparison of a code: its lines have at most 16, 31, 34, 27 and 44 bytes. The writes are the distance in each.
fn write_comparison(writer: &mut Writer, code: Code)
    requires { 152 ≤ room writer.old }
    ensures { Writes writer.old writer.new (comparison_for (Ok code.header)) }
{
    let h = code.header;
    let writes = code.dimensions().distance();
    let high = high_reads(code);
    writer.line("compare", &[h.n, h.k]);
    write_cost(writer, "plain writes", writes, &[1, plain_greatest(h)]);
    write_cost(writer, "balanced writes", writes, &[low_reads(code), high]);
    write_cost(writer, "bound writes", writes, &[high]);
    write_rebuild(writer, code);
}

// An empty page: zeros, with room for any comparison.
#[tactic(auto, unfolding(lists::specs::Padded::zeros))]
pub fn page() -> [u8; 152]
    ensures zeros { result ≡ zeros 152 }
    ensures long { 152 ≡ length result }
{
    [0; 152]
}

// Writes the comparison of a record at the front of a page, and gives its length (and no slice: see `written` of `Writer`). The figures are
// those of the layouts, the bits those of repairs. The page is lent, for the library has no heap.
// As in sheet_text, one function for what answers a record would be no plainer.
pub fn comparison(rec: &[u8], out: &mut [u8; 152]) -> usize
    ensures text { OnPage out.old out.new result (comparison_for (record_of rec.now)) }
    ensures figures { ComparedRecord (record_of rec.now) }
    ensures bits { RebuildPriced rec.now }
{
    let mut writer = Writer::new(out);
    match read_record(rec) {
        Ok(code) => write_comparison(&mut writer, code),
        Err(refusal) => writer.line("refused", &[u8::from(refusal)]),
    }
    writer.written()
}
