// What comes of a message or of an order at a node.
use crate::letter::Mail;
use node_event::What;

/// What happened, which is `What::Strange` where a message does not fit, and the messages that it posts, in their order.
#[derive(Drop)]
pub struct Acted {
    pub what: What,
    pub mail: Mail,
}
