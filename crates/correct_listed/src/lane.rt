// The lanes of listed shares, and their marks. A lane that is marked 0 agrees with the message of its first k symbols, and is not decoded.
ghost use Rattle.std.specs.Prelude.{◌≡◌, true, false, ℕ, ◌*◌, ◌^◌, ◌≤◌, ◌<◌, length, get_or, MatchOption};
ghost use Rattle.lists.specs.Numbers.{all_below};
ghost use Rattle.lists.specs.Padded.{padded, zeros};
ghost use Rattle.layout.specs.Layout.{row_after_row, lane_after_lane, with_lane};
ghost use Rattle.layout.specs.Width.{symbols_of, bytes_of};
ghost use Rattle.generator.specs.Records.{width};
ghost use Rattle.generator.specs.Claims.{at_nodes};
ghost use Rattle.near_message.specs.Nearest.{has_near_message, near_message};
ghost use Rattle.listed_products.specs.Inner.Shares.{ListedNodes, ListedBytes, AgreeMarks, first_messages};
ghost use Rattle.correct_listed.specs.Blocks.{near_messages, wrong_counts, far_listed_bad};
ghost use Rattle.correct_listed.specs.Inner.Lanes.{lane_listed, unlike_added};

use check_sums::lane::PowerRows;
use decode_listed::Received;
use listed_products::MessageLists;
use symbols::Width;

// One more where the symbols differ, for each place.
fn count_unlike(held: &[u16], right: &[u16], counts: &mut [u32])
    requires { (length held.now ≡ length counts.old) × (length right.now ≡ length counts.old) × ((i : ℕ) → get_or counts.old i 0 < 4096) }
    ensures { counts.new ≡ unlike_added held.now right.now counts.old }
{
    for (i, count) in counts.iter_mut().enumerate() {
        *count += u32::from(held[i] != right[i]);
    }
}

// A message into lane t of a message buffer.
fn put_message(w: Width, lanes: usize, t: usize, symbols: &[u16], message: &mut [u8])
    requires { (t < lanes) × (lanes ≤ 4096) × (length symbols.now ≤ 255) × (all_below (256 ^ w.bytes) symbols.now ≡ true) × (length message.old ≡ w.bytes * length symbols.now * lanes) }
    ensures { message.new ≡ bytes_of w.bytes (with_lane row_after_row (length symbols.now) lanes t (λ r. get_or symbols.now r 0) (symbols_of w.bytes message.old)) }
{
    for (r, symbol) in symbols.iter().enumerate() {
        let start = (r * lanes + t) * w.bytes;
        let end = start + w.bytes;
        w.write_symbol(*symbol, &mut message[start..end]);
    }
}

// Listed shares of so many lanes with a mark for each, and the rows of powers by which lanes are decoded.
#[derive(Clone, Copy)]
pub struct Marked<'r, 's, 'm> {
    pub rows: PowerRows<'r>,
    pub lanes: usize,
    pub nodes: &'s [u8],
    pub shares: &'s [u8],
    // A mark is a byte, since the sums of every way are written to lent bytes.
    pub marks: &'m [u8],
    pub ghost listed: { ListedNodes rows.code.header nodes.now },
    pub ghost symbols: { ListedBytes rows.code.header lanes nodes.now shares.now },
    pub ghost agree: { AgreeMarks rows.code.header lanes nodes.now shares.now marks.now },
}

impl Marked<'_, '_, '_> {
    // The symbols of lane t, and zeros after them.
    fn lane(self, t: usize) -> [u16; 255]
        requires { t < self.lanes }
        ensures { let m = self.entry in result ≡ padded 255 (lane_listed m.rows.code.header m.nodes.now m.lanes m.shares.now t) }
    {
        let w = symbols::width_of(self.rows.code.header);
        let size = w.bytes * self.nodes.len();
        let start = t * size;
        let end = start + size;
        w.read_symbols(&self.shares[start..end])
    }

    // What the nodes hold for the message near enough to a lane, if there is one, and zeros after it.
    fn right(self, t: usize, symbols: &[u16]) -> Option<[u16; 255]>
        requires { (t < self.lanes) × (symbols.now ≡ lane_listed self.rows.code.header self.nodes.now self.lanes self.shares.now t) }
        ensures { let h = self.entry.rows.code.header in let js = self.entry.nodes.now in let ys = symbols.now in MatchOption result (has_near_message h js ys ≡ false) (λ right. (has_near_message h js ys ≡ true) × (right ≡ padded 255 (at_nodes h (near_message h js ys) js))) }
    {
        let received = Received {
            rows: self.rows,
            nodes: self.nodes,
            symbols,
        };
        received.near_symbols()
    }

    // Whether a message is near enough to lane t.
    fn is_near(self, t: usize) -> bool
        requires { t < self.lanes }
        ensures { let m = self.entry in let h = m.rows.code.header in result ≡ has_near_message h m.nodes.now (lane_listed h m.nodes.now m.lanes m.shares.now t) }
    {
        if self.marks[t] == 0 {
            return true;
        }
        let symbols = self.lane(t);
        self.right(t, &symbols[..self.nodes.len()]).is_some()
    }

    // Whether there is a lane that no message is near enough to.
    pub fn has_far(self) -> bool
        ensures { let m = self.entry in result ≡ far_listed_bad lane_after_lane m.rows.code.header m.nodes.now m.lanes m.shares.now }
    {
        for t in 0..self.lanes {
            if !self.is_near(t) {
                return true;
            }
        }
        false
    }

    // Writes the message nearest to lane t into a message buffer, and counts the places at which the lane is wrong.
    fn set_lane(self, messages: MessageLists, t: usize, message: &mut [u8], wrong: &mut [u32])
        requires { let h = self.rows.code.header in (t < self.lanes) × (has_near_message h self.nodes.now (lane_listed h self.nodes.now self.lanes self.shares.now t) ≡ true) × (messages.code.header ≡ h) × (messages.nodes.now ≡ self.nodes.now) × (length message.old ≡ width h * h.k * self.lanes) × (length wrong.old ≡ length self.nodes.now) × ((i : ℕ) → get_or wrong.old i 0 < 4096) }
        ensures { let m = self.entry in let h = m.rows.code.header in let ys = lane_listed h m.nodes.now m.lanes m.shares.now t in let ms = near_message h m.nodes.now ys in (message.new ≡ bytes_of (width h) (with_lane row_after_row h.k m.lanes t (λ r. get_or ms r 0) (symbols_of (width h) message.old))) × (wrong.new ≡ unlike_added ys (at_nodes h ms m.nodes.now) wrong.old) }
    {
        let h = self.rows.code.header;
        let k = h.k as usize;
        let count = self.nodes.len();
        let held = self.lane(t);
        match self.right(t, &held[..count]) {
            None => (),
            Some(right) => {
                count_unlike(&held[..count], &right[..count], wrong);
                let found = messages.message(&right[..count]);
                put_message(symbols::width_of(h), self.lanes, t, &found[..k], message);
            }
        }
    }

    // The message nearest to each lane, and for each place how often it is wrong; before, the message of the first k symbols of each lane, and
    // zeros.
    pub fn set_lanes(self, messages: MessageLists, message: &mut [u8], wrong: &mut [u32])
        requires { let h = self.rows.code.header in (far_listed_bad lane_after_lane h self.nodes.now self.lanes self.shares.now ≡ false) × (messages.code.header ≡ h) × (messages.nodes.now ≡ self.nodes.now) × (message.old ≡ bytes_of (width h) (first_messages h self.nodes.now self.lanes (symbols_of (width h) self.shares.now))) × (wrong.old ≡ zeros (length self.nodes.now)) }
        ensures { let m = self.entry in let h = m.rows.code.header in let s = symbols_of (width h) m.shares.now in (message.new ≡ bytes_of (width h) (near_messages lane_after_lane h m.nodes.now m.lanes s)) × (wrong.new ≡ wrong_counts lane_after_lane h m.nodes.now m.lanes s) }
    {
        for t in 0..self.lanes {
            if self.marks[t] == 0 {
                continue;
            }
            self.set_lane(messages, t, message, wrong);
        }
    }
}
