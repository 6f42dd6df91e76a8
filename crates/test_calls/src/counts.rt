// Messages by the Hamming weight of their word.
use crate::{bare_last_buffer, done};
use test_tools::untouched;
use test_words::{BareFault, BareWords};

// What every place of the list of counts holds before the call.
const MARK: u32 = 43690;

pub fn weights(rt: &impl Print, words: &mut BareWords) -> Result<(), BareFault> {
    let record = words.record()?;
    let mut counts = bare_last_buffer(words, MARK)?;
    let answer = weight_counts::weight_counts(&record, &mut counts);
    let kept = untouched(MARK, &counts);
    done(rt, answer, &counts, kept)
}
