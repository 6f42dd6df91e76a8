// The calls by their names.
use crate::arranging::arrange;
use crate::{block_calls, bytes, listed, repairs, shares};
use balanced::Roster;
use test_calls::{counts, lanes, plans, rosters};
use test_words::{BareFault, BareWords};

// Makes the call of a line, all of whose words are read, and prints its answer in words. A name is text from outside: one match leads from it
// to the call. A table of functions would be searched by hand, and the roster goes to some calls only.
pub fn call(rt: &impl Print, line: &[u8], roster: &mut Roster) -> Result<(), BareFault> {
    let mut words = BareWords::new(line);
    let name = words.name();
    let words = &mut words;
    match name {
        "plan" => plans::plan(rt, words),
        "weights" => counts::weights(rt, words),
        "find" => lanes::find(rt, words),
        "mends" => lanes::mends(rt, words),
        "roster" => rosters::start(rt, words, roster),
        "leave" => rosters::event(rt, words, roster, Roster::leave),
        "rejoin" => rosters::event(rt, words, roster, Roster::rejoin),
        "lowest" => rosters::lowest(rt, words, roster),
        "job" => rosters::job(rt, words, roster),
        "encode" => block_calls::encode(rt, words),
        "recover" => block_calls::recover(rt, words),
        "rebuild" => block_calls::rebuild(rt, words),
        "differences" => block_calls::differences(rt, words),
        "to_lanes" => arrange(rt, words, balanced::to_lanes),
        "to_nodes" => arrange(rt, words, balanced::to_nodes),
        "listed_to_lanes" => arrange(rt, words, balanced::listed_to_lanes),
        "listed_to_nodes" => arrange(rt, words, balanced::listed_to_nodes),
        "update" => shares::update(rt, words),
        "update_lanes" => shares::update_lanes(rt, words),
        "belongs" => shares::belongs(rt, words),
        "correct" => shares::correct(rt, words),
        "correct_listed" => listed::correct(rt, words),
        "add_share" => shares::add_share(rt, words),
        "repair_bits" => repairs::bits(rt, words),
        "repair_share" => repairs::share(rt, words),
        "repair_plan" => repairs::plan(rt, words),
        "carried_len" => bytes::carried_len(rt, words),
        "carry_in" => bytes::carry(rt, words, "bytes", balanced::carry_in),
        "carry_out" => bytes::carry(rt, words, "symbols", balanced::carry_out),
        "carry_change" => bytes::carry_change(rt, words),
        "choose" => bytes::choose(rt, words),
        _ => Err(BareFault::UnknownCall),
    }
}
