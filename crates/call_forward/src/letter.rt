// Letters between nodes.
ghost use Rattle.std.specs.Prelude.{◌≡◌, ◌∷◌};
ghost use Rattle.call_forward.specs.Messages.{nodes_of, are_below};

use crate::message::Message;
use call_table::ListOf;

/// A message with the node that posts it, the node that it goes to, and the stamp of the event that posted it.
#[derive(Drop)]
pub struct Letter {
    pub from: u8,
    pub to: u8,
    pub stamp: u64,
    pub message: Message,
}

/// Messages that an event posts, each with the node that it goes to, in their order.
pub type Mail = ListOf<(u8, Message)>;

impl Letter {
    /// Whether each node that the letter names, its sender and its receiver too, is below `nodes`.
    pub fn is_below(&self, nodes: u8) -> bool
        ensures { result ≡ are_below nodes (self.now.from ∷ self.now.to ∷ nodes_of self.now.message) }
    {
        if self.from >= nodes || self.to >= nodes {
            return false;
        }
        self.message.is_below(nodes)
    }
}
