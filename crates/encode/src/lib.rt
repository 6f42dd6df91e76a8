// Encode: the shares of all nodes, each lane encoded by itself. Lanes are encoded 64 at a time, as rows of a tile.
// What the call promises stands in specs/Promise.antt.
#![tactic(auto)]

ghost use Rattle.std.specs.Prelude.{◌≡◌, length};
ghost use Rattle.layout.specs.Layout.{share_layout};
ghost use Rattle.generator.specs.Answers.{numbered};
ghost use Rattle.encode.specs.Promise.{encode_fault, EncodePromise, EncodeSays};
ghost use Rattle.encode.specs.Inner.Encoded.{share_bytes, encoded};

use generator::{Code, Refusal};
use message::Message;
use plan::Generator;

mod fault;
mod lanes;
mod message;
mod one_lane;

// Whether so few lanes take less time one by one than as a tile: a lane by itself takes longer for each node.
fn are_few(lanes: usize, n: usize) -> bool {
    lanes == 1 || (lanes <= 6 && lanes <= n / 10)
}

impl Message<'_> {
    // Fills all lanes: few lanes one by one, more as a product of matrices.
    fn encode_lanes(self, out: &mut [u8])
        requires { length out.old ≡ share_bytes self }
        ensures { out.new ≡ encoded self.entry }
    {
        if are_few(self.lanes, self.generator.codec.code.header.n as usize) {
            self.fill_each(out);
        } else {
            self.fill_lanes(out);
        }
    }
}

// Encodes over an accepted record's code. Everything is judged before the first byte is written.
#[tactic(auto, using(layout::proofs::LaneParts::lanes_long, generator::proofs::Answered::tests, crate::proofs::Accepts::encode_accepts, crate::proofs::Accepts::encode_refuses, crate::proofs::Shares::encoded_lanes))]
fn encode_accepted(code: Code, lanes: usize, message: &[u8], out: &mut [u8]) -> Result<(), Refusal>
    ensures { EncodePromise share_layout lanes message.now out.old out.new (numbered result) code.header (encode_fault code.header lanes (length out.old) message.now) }
{
    fault::encode_fault(code, lanes, message, out.len())?;
    let tables = field::constant_tables();
    let generator = Generator::new(code, &tables);
    let message = Message {
        generator: &generator,
        width: symbols::width_of(code.header),
        lanes,
        bytes: message,
    };
    message.encode_lanes(out);
    Ok(())
}

// Writes the shares of all nodes, or says what turns the call away and writes nothing. It has the shape of `add_share` of differences, and
// another promise: each call of the interface is a function of its own.
pub fn encode_block(rec: &[u8], lanes: u32, message: &[u8], out: &mut [u8]) -> Result<(), Refusal>
    ensures { EncodeSays rec.now lanes message.now out.old out.new (numbered result) }
{
    let code = records::read_record(rec)?;
    encode_accepted(code, lanes as usize, message, out)
}
