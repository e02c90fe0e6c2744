// What a node keeps of gossip.
use load_gossip::Vector;
use rand_pcg::Pcg32;

/// The load vector, how many halves were sent, the quanta of steps since the last one, the load and the free pages that it told, and where the next
/// targets are drawn from.
#[derive(Drop)]
pub struct Talk {
    pub vector: Vector,
    pub sent: u32,
    pub steps: u32,
    pub load: u32,
    pub free: u32,
    pub chance: Pcg32,
}
