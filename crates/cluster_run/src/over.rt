// How a run is over.
use call_table::ListOf;
use node_core::Node;
use node_links::Carriers;

/// The nodes of a cluster, in node order.
pub type Nodes = ListOf<Node>;

/// Why a run is over.
#[derive(Clone, Copy, Debug, PartialEq, Eq)]
pub enum OverWhy {
    /// Every line of the script was carried out, and every process has ended.
    Done,
    /// Nothing can be done at any node, and the run is not done.
    Stuck,
    /// A journal is full where more is due. The node is the least such one.
    Full { node: u8 },
}

/// A run that is over: the nodes and the carriers as it left them.
#[derive(Drop)]
pub struct Over<C> {
    pub nodes: Nodes,
    pub carriers: Carriers<C>,
    pub why: OverWhy,
}
