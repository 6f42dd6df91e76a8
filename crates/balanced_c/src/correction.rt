// Setting a block right, and the message of listed shares of which some are wrong.
ghost use Rattle.balanced_c.specs.Corrections.{CorrectGives, CorrectListedGives};

use crate::hand_over;

// Each lane becomes the word of the code nearest to it; `altered` receives how many symbols were altered.
pub fn balanced_correct(rec: &[u8], lanes: u32, shares: &mut [u8], altered: &mut u32) -> u8
    ensures { CorrectGives rec.now lanes shares.old altered.old shares.new altered.new result }
{
    hand_over(balanced::correct_block(rec, lanes, shares), altered)
}

// In each lane the message nearest to the listed symbols; `wrong` receives for each place of the list in how many lanes it was wrong, and
// `altered` the sum of these.
pub fn balanced_correct_listed(
    rec: &[u8],
    lanes: u32,
    nodes: &[u8],
    shares: &[u8],
    message: &mut [u8],
    wrong: &mut [u32],
    altered: &mut u32,
) -> u8
    ensures { CorrectListedGives rec.now lanes nodes.now shares.now message.old wrong.old altered.old message.new wrong.new altered.new result }
{
    let answer = balanced::correct_listed(rec, lanes, nodes, shares, message, wrong);
    hand_over(answer, altered)
}
