// The call on listed shares of which some are wrong.
use crate::block_words::block;
use balanced::Refusal;
use test_calls::{answered, bare_buffer, bare_last_buffer, turned_away};
use test_tools::{List, MARK, untouched};
use test_words::{BareFault, BareWords};

// What every place of the list of counts holds before the call.
const NO_COUNT: u32 = 43690;

// How many symbols were wrong, the message and the counts, or what turned the call away and whether both are as they were.
fn settled(
    rt: &impl Print,
    answer: Result<u32, Refusal>,
    message: &[u8],
    wrong: &[u32],
) -> Result<(), BareFault> {
    match answer {
        Ok(count) => answered(
            rt,
            format_args!(
                "altered {count} message{} wrong{}",
                List(message),
                List(wrong)
            ),
        ),
        Err(refusal) => {
            let kept = untouched(MARK, message) && untouched(NO_COUNT, wrong);
            turned_away(rt, refusal, kept)
        }
    }
}

// The lists are lent with room for so many bytes of the message, and for so many counts.
pub fn correct(rt: &impl Print, words: &mut BareWords) -> Result<(), BareFault> {
    let (record, lanes) = block(words)?;
    let nodes = words.bytes("nodes")?;
    let shares = words.bytes("shares")?;
    let mut message = bare_buffer(words, MARK)?;
    let mut wrong = bare_last_buffer(words, NO_COUNT)?;
    let answer = balanced::correct_listed(
        &record,
        lanes,
        &nodes,
        &shares,
        &mut message,
        &mut wrong,
    );
    settled(rt, answer, &message, &wrong)
}
