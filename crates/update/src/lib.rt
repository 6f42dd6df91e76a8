// Update: one symbol of one lane changes, and with it the lane's symbol at the nodes that depend on it.
// What the call promises stands in specs/Promise.antt.
#![tactic(auto)]

ghost use Rattle.std.specs.Prelude.{◌≡◌, ◌<◌};
ghost use Rattle.lists.specs.Counting.{differ};
ghost use Rattle.layout.specs.Layout.{lane_of, share_layout};
ghost use Rattle.layout.specs.Width.{symbols_of, bytes_of};
ghost use Rattle.field.specs.Fields.{add, mul};
ghost use Rattle.generator.specs.Answers.{numbered, outcome_of};
ghost use Rattle.generator.specs.Records.{modulus_of, size, width};
ghost use Rattle.refusals.specs.Faults.{stale_fault};
ghost use Rattle.update.specs.Promise.{update_fault, UpdatePromise, UpdateSays};
ghost use Rattle.refusals.specs.Accepted.{UpdatableLane};
ghost use Rattle.blocks.specs.Blocks.{updated, word_added};
ghost use Rattle.update.specs.Inner.Words.{UpdatableWord};

use generator::{Code, Codec, Refusal};
use plan::Generator;
use symbols::Width;

mod fault;

// Of so many lanes, symbol `which` of the message in one lane, which was `old` and becomes `new`.
#[derive(Clone, Copy)]
pub struct Update {
    pub lanes: usize,
    pub which: usize,
    pub lane: usize,
    pub old: u32,
    pub new: u32,
}

// What a node holds after x times its entry is added to what it held.
fn renewed(codec: Codec, x: u32, entry: u16, before: u16) -> u16
    requires { (x < size codec.code.header) × (entry < size codec.code.header) × (before < size codec.code.header) }
    ensures { result ≡ add (modulus_of codec.entry.code.header) before (mul (modulus_of codec.entry.code.header) x entry) }
{
    let field = codec.field;
    let term = field.mul(x, entry as u32);
    field.add(before as u32, term) as u16
}

// Adds x times a row of the generator to a lane: rewrites the nodes whose symbol becomes another one, and counts them. Each symbol is cut by
// its place: after `chunks_mut` a proof knows the length alone (docs/PROOF-NOTES.md).
fn rewrite(generator: &Generator, w: Width, which: usize, x: u32, lane: &mut [u8]) -> u32
    requires { UpdatableWord generator.now.codec.code.header w.bytes which lane.old × (x < size generator.now.codec.code.header) }
    ensures { let added = word_added generator.now.codec.code.header which x (symbols_of w.bytes lane.old) in (lane.new ≡ bytes_of w.bytes added) × (result ≡ differ (symbols_of w.bytes lane.old) added) }
{
    let n = generator.codec.code.header.n as usize;
    let mut count: u32 = 0;
    for j in 0..n {
        let entry = generator.entry(which, j);
        let before = w.symbol_at(lane, j);
        let after = renewed(generator.codec, x, entry, before);
        if after != before {
            let start = j * w.bytes;
            let end = start + w.bytes;
            w.write_symbol(after, &mut lane[start..end]);
            count += 1;
        }
    }
    count
}

// Whether a lane is no word of the code, or one whose message holds another symbol than `old`.
fn judge(
    generator: &Generator,
    w: Width,
    which: usize,
    old: u32,
    lane: &[u8],
) -> Result<(), Refusal>
    requires { UpdatableWord generator.now.codec.code.header w.bytes which lane.now }
    ensures { numbered result ≡ outcome_of (stale_fault generator.now.codec.code.header (symbols_of w.bytes lane.now) which old) }
{
    let n = generator.codec.code.header.n as usize;
    let symbols = w.read_symbols(lane);
    lane_message::stale_fault(
        generator.codec,
        &generator.shifts,
        &symbols[..n],
        which,
        old,
    )
}

impl Update {
    // Judges its lane of the shares, which is handed on as the part from its start to the next one's.
    // The part's place is computed here and in `rewrite_lane`: `fn lane_bytes(self, w: Width, n: usize) -> Range<usize>` would take three lines
    // away from each, and be longer than they are, with a clause for the bounds under which its products fit and one for start and end.
    pub fn judge_lane(self, generator: &Generator, shares: &[u8]) -> Result<(), Refusal>
        requires { UpdatableLane generator.now.codec.code.header self.lanes self.which self.lane shares.now }
        ensures { let h = generator.now.codec.code.header in numbered result ≡ outcome_of (stale_fault h (lane_of share_layout h.n self.lanes self.lane (symbols_of (width h) shares.now)) self.which self.old) }
    {
        let w = symbols::width_of(generator.codec.code.header);
        let size = w.bytes * generator.codec.code.header.n as usize;
        let start = self.lane * size;
        let end = start + size;
        let lane = &shares[start..end];
        judge(generator, w, self.which, self.old, lane)
    }

    // Rewrites the lane, which is handed on likewise, and counts the nodes whose symbol becomes another one.
    pub fn rewrite_lane(self, generator: &Generator, shares: &mut [u8]) -> u32
        requires { let h = generator.now.codec.code.header in UpdatableLane h self.lanes self.which self.lane shares.old × (self.old < size h) × (self.new < size h) }
        ensures { let h = generator.now.codec.code.header in let s = symbols_of (width h) shares.old in let added = updated share_layout h self.lanes self.which self.lane self.old self.new s in (shares.new ≡ bytes_of (width h) added) × (result ≡ differ s added) }
    {
        let h = generator.codec.code.header;
        let x = h.field.sub(self.new, self.old);
        let w = symbols::width_of(h);
        let size = w.bytes * h.n as usize;
        let start = self.lane * size;
        let end = start + size;
        let lane = &mut shares[start..end];
        rewrite(generator, w, self.which, x, lane)
    }
}

// Updates over the code of an accepted record. Everything is judged before the first byte is written.
fn update_accepted(code: Code, update: Update, shares: &mut [u8]) -> Result<u32, Refusal>
    ensures { let u = update in UpdatePromise share_layout u.lanes u.which u.lane u.old u.new shares.old shares.new (numbered result) code.header (update_fault share_layout code.header u.lanes u.which u.lane u.old u.new shares.old) }
{
    update.input_fault(code, shares)?;
    let tables = field::constant_tables();
    let generator = Generator::new(code, &tables);
    update.judge_lane(&generator, shares)?;
    Ok(update.rewrite_lane(&generator, shares))
}

// Adds (new − old) times row `which` of the generator to a lane of the shares and gives how many nodes it altered, or says what turns the call away and writes nothing.
pub fn update_lane(
    rec: &[u8],
    lanes: u32,
    which: u32,
    lane: u32,
    old: u32,
    new: u32,
    shares: &mut [u8],
) -> Result<u32, Refusal>
    ensures { UpdateSays rec.now lanes which lane old new shares.old shares.new (numbered result) }
{
    let code = records::read_record(rec)?;
    let update = Update {
        lanes: lanes as usize,
        which: which as usize,
        lane: lane as usize,
        old,
        new,
    };
    update_accepted(code, update, shares)
}
