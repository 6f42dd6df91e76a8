// A roster is read from 256 bytes and written to them.
ghost use Rattle.std.specs.Prelude.{◌≡◌};
ghost use Rattle.roster_bytes.specs.Bytes.{roster_of, roster_bytes};

use roster::Roster;

// The roster of 256 bytes: a mark other than 0 counts as present. No `From`: neither `Roster` nor an array is a type of this crate.
pub fn read_roster(bytes: &[u8; 256]) -> Roster
    ensures { result ≡ roster_of bytes.now }
{
    // By the index: with `array::from_fn`, whose closure becomes no vector instructions, the calls on a roster take up to ten times as long.
    let mut marks = [false; 255];
    for j in 0..255 {
        marks[j] = bytes[j] != 0;
    }
    Roster {
        marks,
        job: bytes[255],
    }
}

// The bytes of a roster: 1 for a present node, else 0, and then the job number.
pub fn bytes_of(roster: &Roster) -> [u8; 256]
    ensures { result ≡ roster_bytes roster.now }
{
    let mut bytes = [roster.job; 256];
    // By the index: `roster.marks.map(u8::from)` becomes no vector instructions either.
    for j in 0..255 {
        bytes[j] = u8::from(roster.marks[j]);
    }
    bytes
}
