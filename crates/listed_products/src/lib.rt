// The lanes of shares of listed nodes, all at once: which of them agree with the message of their first k symbols, and that message.
#![tactic(auto)]

ghost use Rattle.layout.specs.Layout.{share_layout};
ghost use Rattle.listed_products.specs.Inner.Shares.{ListedNodes, ListedBytes};

use generator::Code;

mod marks;
mod messages;

pub use messages::MessageLists;

// k different nodes or more, and their shares of so many lanes, which hold symbols of the code's field.
#[derive(Clone, Copy)]
pub struct ListedBlock<'n, 's> {
    pub code: Code,
    pub lanes: usize,
    pub nodes: &'n [u8],
    pub shares: &'s [u8],
    pub ghost listed: { ListedNodes code.header nodes.now },
    pub ghost symbols: { ListedBytes code.header lanes nodes.now shares.now },
}
