// The static library for callers from C: each function of `balanced_c` under its own name, with its clauses. Each stands twice, for a crate
// that exports names to C is no library for other crates, and `demands` proves its theorems over the functions of `balanced_c`.
#![tactic(auto)]

ghost use Rattle.std.specs.Prelude.{◌≡◌};
ghost use Rattle.balanced_c.specs.Calls.{PlanGives, EncodeGives, UpdateGives, RecoverGives, RebuildGives, BelongsGives, WeightsGive, ToLanesGives, ToNodesGives, ListedToLanesGives, ListedToNodesGives};
ghost use Rattle.balanced_c.specs.RowChanges.{DifferencesGives, AddGives, UpdateLanesGives};
ghost use Rattle.balanced_c.specs.Corrections.{CorrectGives, CorrectListedGives};
ghost use Rattle.balanced_c.specs.Lanes.{FindGives, MendsGive};
ghost use Rattle.balanced_c.specs.Repairs.{RepairPlanGives, RepairBitsGives, RepairShareGives};
ghost use Rattle.balanced_c.specs.BytesCarried.{CarriedLenGives, CarryInGives, CarryOutGives, CarryChangeGives, ChooseGives};
ghost use Rattle.roster.specs.Events.{leaves, returns};
ghost use Rattle.roster_bytes.specs.Calls.{StartGives, EventGives, LowestGives, JobGives};
ghost use Rattle.balanced_c.specs.Version.{version_number};

// The plan of a record: n, k, d, k·d / n rounded down and up; the shifts; the first nodes; the base word.
#[unsafe(no_mangle)]
pub extern "C" fn balanced_plan(
    rec: &[u8],
    numbers: &mut [u8],
    shifts: &mut [u8],
    firsts: &mut [u8],
    base: &mut [u16],
) -> u8
    ensures { PlanGives rec.now numbers.old shifts.old firsts.old base.old numbers.new shifts.new firsts.new base.new result }
{
    balanced_c::balanced_plan(rec, numbers, shifts, firsts, base)
}

// Encode: the shares of all nodes.
#[unsafe(no_mangle)]
pub extern "C" fn balanced_encode(rec: &[u8], lanes: u32, message: &[u8], shares: &mut [u8]) -> u8
    ensures { EncodeGives rec.now lanes message.now shares.old shares.new result }
{
    balanced_c::balanced_encode(rec, lanes, message, shares)
}

// Update: one symbol of one lane; `altered` receives how many nodes were altered.
#[unsafe(no_mangle)]
pub extern "C" fn balanced_update(
    rec: &[u8],
    lanes: u32,
    symbol: u32,
    lane: u32,
    old: u32,
    new: u32,
    shares: &mut [u8],
    altered: &mut u32,
) -> u8
    ensures { UpdateGives rec.now lanes symbol lane old new shares.old altered.old shares.new altered.new result }
{
    balanced_c::balanced_update(rec, lanes, symbol, lane, old, new, shares, altered)
}

// Recover: the message, from the shares of the listed nodes.
#[unsafe(no_mangle)]
pub extern "C" fn balanced_recover(
    rec: &[u8],
    lanes: u32,
    nodes: &[u8],
    shares: &[u8],
    message: &mut [u8],
) -> u8
    ensures { RecoverGives rec.now lanes nodes.now shares.now message.old message.new result }
{
    balanced_c::balanced_recover(rec, lanes, nodes, shares, message)
}

// Rebuild: the target's share, from the shares of the listed nodes.
#[unsafe(no_mangle)]
pub extern "C" fn balanced_rebuild(
    rec: &[u8],
    lanes: u32,
    nodes: &[u8],
    shares: &[u8],
    target: u32,
    share: &mut [u8],
) -> u8
    ensures { RebuildGives rec.now lanes nodes.now shares.now target share.old share.new result }
{
    balanced_c::balanced_rebuild(rec, lanes, nodes, shares, target, share)
}

// Belongs: `first_wrong` receives the smallest lane that is no word of the code, or the number of lanes.
#[unsafe(no_mangle)]
pub extern "C" fn balanced_belongs(
    rec: &[u8],
    lanes: u32,
    shares: &[u8],
    first_wrong: &mut u32,
) -> u8
    ensures { BelongsGives rec.now lanes shares.now first_wrong.old first_wrong.new result }
{
    balanced_c::balanced_belongs(rec, lanes, shares, first_wrong)
}

// How many messages have a word with w nodes that are not zero, w from 0 to n.
#[unsafe(no_mangle)]
pub extern "C" fn balanced_weights(rec: &[u8], counts: &mut [u32]) -> u8
    ensures { WeightsGive rec.now counts.old counts.new result }
{
    balanced_c::balanced_weights(rec, counts)
}

// Shares that stand node after node, written lane after lane.
#[unsafe(no_mangle)]
pub extern "C" fn balanced_to_lanes(
    rec: &[u8],
    lanes: u32,
    by_node: &[u8],
    by_lane: &mut [u8],
) -> u8
    ensures { ToLanesGives rec.now lanes by_node.now by_lane.old by_lane.new result }
{
    balanced_c::balanced_to_lanes(rec, lanes, by_node, by_lane)
}

// Shares that stand lane after lane, written node after node.
#[unsafe(no_mangle)]
pub extern "C" fn balanced_to_nodes(
    rec: &[u8],
    lanes: u32,
    by_lane: &[u8],
    by_node: &mut [u8],
) -> u8
    ensures { ToNodesGives rec.now lanes by_lane.now by_node.old by_node.new result }
{
    balanced_c::balanced_to_nodes(rec, lanes, by_lane, by_node)
}

// The shares of k listed nodes, written lane after lane.
#[unsafe(no_mangle)]
pub extern "C" fn balanced_listed_to_lanes(
    rec: &[u8],
    lanes: u32,
    by_node: &[u8],
    by_lane: &mut [u8],
) -> u8
    ensures { ListedToLanesGives rec.now lanes by_node.now by_lane.old by_lane.new result }
{
    balanced_c::balanced_listed_to_lanes(rec, lanes, by_node, by_lane)
}

// The shares of k listed nodes, written node after node.
#[unsafe(no_mangle)]
pub extern "C" fn balanced_listed_to_nodes(
    rec: &[u8],
    lanes: u32,
    by_lane: &[u8],
    by_node: &mut [u8],
) -> u8
    ensures { ListedToNodesGives rec.now lanes by_lane.now by_node.old by_node.new result }
{
    balanced_c::balanced_listed_to_nodes(rec, lanes, by_lane, by_node)
}

// What each node adds, node after node, where the row of a symbol changes from old to new in every lane.
#[unsafe(no_mangle)]
pub extern "C" fn balanced_differences(
    rec: &[u8],
    lanes: u32,
    symbol: u32,
    old: &[u8],
    new: &[u8],
    differences: &mut [u8],
) -> u8
    ensures { DifferencesGives rec.now lanes symbol old.now new.now differences.old differences.new result }
{
    balanced_c::balanced_differences(rec, lanes, symbol, old, new, differences)
}

// A node's share with its difference added.
#[unsafe(no_mangle)]
pub extern "C" fn balanced_add_share(
    rec: &[u8],
    lanes: u32,
    difference: &[u8],
    share: &mut [u8],
) -> u8
    ensures { AddGives rec.now lanes difference.now share.old share.new result }
{
    balanced_c::balanced_add_share(rec, lanes, difference, share)
}

// Update for a run of lanes: `altered` receives how many symbols were altered.
#[unsafe(no_mangle)]
pub extern "C" fn balanced_update_lanes(
    rec: &[u8],
    lanes: u32,
    symbol: u32,
    first: u32,
    old: &[u8],
    new: &[u8],
    shares: &mut [u8],
    altered: &mut u32,
) -> u8
    ensures { UpdateLanesGives rec.now lanes symbol first old.now new.now shares.old altered.old shares.new altered.new result }
{
    balanced_c::balanced_update_lanes(rec, lanes, symbol, first, old, new, shares, altered)
}

// Each lane becomes the word of the code nearest to it; `altered` receives how many symbols were altered.
#[unsafe(no_mangle)]
pub extern "C" fn balanced_correct(
    rec: &[u8],
    lanes: u32,
    shares: &mut [u8],
    altered: &mut u32,
) -> u8
    ensures { CorrectGives rec.now lanes shares.old altered.old shares.new altered.new result }
{
    balanced_c::balanced_correct(rec, lanes, shares, altered)
}

// In each lane the message nearest to the listed symbols; `wrong` receives for each place of the list in how many lanes it was wrong, and
// `altered` the sum of these.
#[unsafe(no_mangle)]
pub extern "C" fn balanced_correct_listed(
    rec: &[u8],
    lanes: u32,
    nodes: &[u8],
    shares: &[u8],
    message: &mut [u8],
    wrong: &mut [u32],
    altered: &mut u32,
) -> u8
    ensures { CorrectListedGives rec.now lanes nodes.now shares.now message.old wrong.old altered.old message.new wrong.new altered.new result }
{
    balanced_c::balanced_correct_listed(rec, lanes, nodes, shares, message, wrong, altered)
}

// Which update it was: `answer` receives 0 where the lanes are equal, 1 where an update was found and 2 where there is none; `symbol` and `amount` receive what was found, and 0 otherwise.
#[unsafe(no_mangle)]
pub extern "C" fn balanced_find_update(
    rec: &[u8],
    before: &[u8],
    after: &[u8],
    answer: &mut u32,
    symbol: &mut u32,
    amount: &mut u32,
) -> u8
    ensures { FindGives rec.now before.now after.now answer.old symbol.old amount.old answer.new symbol.new amount.new result }
{
    balanced_c::balanced_find_update(rec, before, after, answer, symbol, amount)
}

// Every node and new symbol whose single change makes the lane a word, lowest node first: `count` receives how many; places past them hold what they held.
#[unsafe(no_mangle)]
pub extern "C" fn balanced_mends(
    rec: &[u8],
    lane: &[u8],
    nodes: &mut [u8],
    symbols: &mut [u8],
    count: &mut u32,
) -> u8
    ensures { MendsGive rec.now lane.now nodes.old symbols.old count.old nodes.new symbols.new count.new result }
{
    balanced_c::balanced_mends(rec, lane, nodes, symbols, count)
}

// The plan of a repair with so many nodes missing beside the target: `bits` receives how many bits of a symbol each node sends, `spare` how many further nodes may be missing.
#[unsafe(no_mangle)]
pub extern "C" fn balanced_repair_plan(
    rec: &[u8],
    missing: u32,
    bits: &mut u32,
    spare: &mut u32,
) -> u8
    ensures { RepairPlanGives rec.now missing bits.old spare.old bits.new spare.new result }
{
    balanced_c::balanced_repair_plan(rec, missing, bits, spare)
}

// What a node sends of its share to the target.
#[unsafe(no_mangle)]
pub extern "C" fn balanced_repair_bits(
    rec: &[u8],
    lanes: u32,
    node: u32,
    target: u32,
    missing: &[u8],
    share: &[u8],
    bits: &mut [u8],
) -> u8
    ensures { RepairBitsGives rec.now lanes node target missing.now share.now bits.old bits.new result }
{
    balanced_c::balanced_repair_bits(rec, lanes, node, target, missing, share, bits)
}

// The target's share, from what the other nodes sent.
#[unsafe(no_mangle)]
pub extern "C" fn balanced_repair_share(
    rec: &[u8],
    lanes: u32,
    target: u32,
    missing: &[u8],
    rows: &[u8],
    share: &mut [u8],
) -> u8
    ensures { RepairShareGives rec.now lanes target missing.now rows.now share.old share.new result }
{
    balanced_c::balanced_repair_share(rec, lanes, target, missing, rows, share)
}

// How many bytes of symbols carry `length` bytes: `carried` receives it.
#[unsafe(no_mangle)]
pub extern "C" fn balanced_carried_len(rec: &[u8], length: usize, carried: &mut usize) -> u8
    ensures { CarriedLenGives rec.now length carried.old carried.new result }
{
    balanced_c::balanced_carried_len(rec, length, carried)
}

// Bytes written as symbols.
#[unsafe(no_mangle)]
pub extern "C" fn balanced_carry_in(rec: &[u8], bytes: &[u8], symbols: &mut [u8]) -> u8
    ensures { CarryInGives rec.now bytes.now symbols.old symbols.new result }
{
    balanced_c::balanced_carry_in(rec, bytes, symbols)
}

// The bytes that symbols carry, as many as there is room for.
#[unsafe(no_mangle)]
pub extern "C" fn balanced_carry_out(rec: &[u8], symbols: &[u8], bytes: &mut [u8]) -> u8
    ensures { CarryOutGives rec.now symbols.now bytes.old bytes.new result }
{
    balanced_c::balanced_carry_out(rec, symbols, bytes)
}

// The bytes from `at` on changed, of `length` bytes that symbols carry.
#[unsafe(no_mangle)]
pub extern "C" fn balanced_carry_change(
    rec: &[u8],
    length: usize,
    at: usize,
    bytes: &[u8],
    symbols: &mut [u8],
) -> u8
    ensures { CarryChangeGives rec.now length at bytes.now symbols.old symbols.new result }
{
    balanced_c::balanced_carry_change(rec, length, at, bytes, symbols)
}

// A record with n nodes, any k of which give a message back, that carries bytes; `len` receives how many bytes it has.
#[unsafe(no_mangle)]
pub extern "C" fn balanced_choose(n: u32, k: u32, rec: &mut [u8], len: &mut u32) -> u8
    ensures { ChooseGives n k rec.old len.old rec.new len.new result }
{
    balanced_c::balanced_choose(n, k, rec, len)
}

// All nodes present; beside the record's number 256 zeros.
#[unsafe(no_mangle)]
pub extern "C" fn balanced_roster_start(rec: &[u8], roster: &mut [u8]) -> u8
    ensures { StartGives rec.now roster.old roster.new result }
{
    balanced_c::balanced_roster_start(rec, roster)
}

// A node leaves.
#[unsafe(no_mangle)]
pub extern "C" fn balanced_roster_leave(rec: &[u8], roster: &mut [u8], node: u32) -> u8
    ensures { EventGives rec.now roster.old (leaves node) roster.new result }
{
    balanced_c::balanced_roster_leave(rec, roster, node)
}

// A node returns.
#[unsafe(no_mangle)]
pub extern "C" fn balanced_roster_rejoin(rec: &[u8], roster: &mut [u8], node: u32) -> u8
    ensures { EventGives rec.now roster.old (returns node) roster.new result }
{
    balanced_c::balanced_roster_rejoin(rec, roster, node)
}

// The k lowest present nodes; `enough` receives 1 where they are written, 0 where fewer than k are present.
#[unsafe(no_mangle)]
pub extern "C" fn balanced_roster_lowest(
    rec: &[u8],
    roster: &[u8],
    list: &mut [u8],
    enough: &mut u32,
) -> u8
    ensures { LowestGives rec.now roster.now list.old enough.old list.new enough.new result }
{
    balanced_c::balanced_roster_lowest(rec, roster, list, enough)
}

// The nodes that the next job reads; the roster moves on where they are written.
#[unsafe(no_mangle)]
pub extern "C" fn balanced_roster_job(
    rec: &[u8],
    roster: &mut [u8],
    list: &mut [u8],
    enough: &mut u32,
) -> u8
    ensures { JobGives rec.now roster.old list.old enough.old roster.new list.new enough.new result }
{
    balanced_c::balanced_roster_job(rec, roster, list, enough)
}

// 10000 times the major version, 100 times the minor one, and the patch.
#[unsafe(no_mangle)]
pub extern "C" fn balanced_version() -> u32
    ensures { result ≡ version_number }
{
    balanced_c::balanced_version()
}
