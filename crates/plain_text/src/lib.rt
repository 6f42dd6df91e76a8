// The plain layout of a record's code as text: what each node multiplies the symbols of the message by.
#![tactic(auto)]

ghost use Rattle.std.specs.Prelude.{◌≡◌, ◌+◌, ◌≤◌, ◌<◌, length, Ok};
ghost use Rattle.lists.specs.Padded.{zeros};
ghost use Rattle.lists.specs.Rows.{range};
ghost use Rattle.generator.specs.Records.{record_of};
ghost use Rattle.text.specs.Writing.{OnPage};
ghost use Rattle.text.specs.Inner.Writer.{room, Writes};
ghost use Rattle.plain_text.specs.Plain.{node_line, plain_for};

use arrayvec::ArrayVec;
use generator::{Code, Header};
use node_weights::rebuild_weights;
use records::read_record;
use text::Writer;

// The plain layout of a code, and its first k nodes, which hold the message.
#[derive(Drop)]
struct PlainLayout {
    code: Code,
    nodes: ArrayVec<u8, 255>,
    ghost listed: { nodes.items ≡ range 0 code.header.k },
}

impl PlainLayout {
    // Of the first k nodes. By `nodes_where` (node_lists) they would be those that pass a test that all pass.
    #[tactic(auto, using(lists::proofs::Places::range_append), unfolding(lists::specs::Rows::from))]
    fn new(code: Code) -> Self
        ensures { result.code ≡ code }
    {
        let mut nodes = ArrayVec::new();
        for j in 0..code.header.k {
            nodes.push(j);
        }
        PlainLayout { code, nodes }
    }

    // The line of node j.
    fn write_node(&self, writer: &mut Writer, j: u8)
        requires node { j < self.now.code.header.n }
        requires room { 1539 ≤ room writer.old }
        ensures text { Writes writer.old writer.new (node_line self.now.code.header j) }
        ensures room { room writer.old ≤ room writer.new + 1539 }
    {
        let k = usize::from(self.code.header.k);
        let weights = rebuild_weights(self.code, &self.nodes, u32::from(j));
        writer.word("node");
        writer.field(j);
        writer.fields(&weights[..k]);
    }

    // The first line has at most 14 bytes, and each of at most 255 nodes has at most 1,539.
    #[tactic(auto, using(text::proofs::Written::writing_start, text::proofs::Written::writing_row))]
    fn write(&self, writer: &mut Writer)
        requires { 392459 ≤ room writer.old }
        ensures { Writes writer.old writer.new (plain_for (Ok self.now.code.header)) }
    {
        let Header { n, k, .. } = self.code.header;
        writer.line("plain", &[n, k]);
        for j in 0..n {
            self.write_node(writer, j);
        }
    }
}

// An empty page: zeros, with room for any plain layout.
#[tactic(auto, unfolding(lists::specs::Padded::zeros))]
pub fn page() -> [u8; 392459]
    ensures zeros { result ≡ zeros 392459 }
    ensures long { 392459 ≡ length result }
{
    [0; 392459]
}

// Writes the plain layout of a record's code at the front of a page, and gives its length (and no slice: see `written` of `Writer`). The
// page is lent, for the library has no heap.
// As in sheet_text, one function for what answers a record would be no plainer.
pub fn plain(rec: &[u8], out: &mut [u8; 392459]) -> usize
    ensures { OnPage out.old out.new result (plain_for (record_of rec.now)) }
{
    let mut writer = Writer::new(out);
    match read_record(rec) {
        Ok(code) => PlainLayout::new(code).write(&mut writer),
        Err(refusal) => writer.line("refused", &[u8::from(refusal)]),
    }
    writer.written()
}
