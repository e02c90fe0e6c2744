// A carrier over rings.
ghost use Rattle.std.specs.Prelude.{◌≡◌, ◌==◌, length};
ghost use Rattle.node_links.specs.Links.{letters_put, letters_taken, known_letters, free_slots, IsLink};

use crate::carrier::Carrier;
use crate::ends::{In, Out};
use call_forward::Letter;
use call_table::NoMemory;

/// A carrier over two rings of letters, or over one where it leads from a node to itself. It never replaces a ring.
#[derive(Drop)]
pub struct RingCarrier {
    pub(crate) out: Out,
    pub(crate) back: In,
    pub(crate) count: u64,
}

impl RingCarrier {
    /// The carrier over these ends. It has taken no letter.
    pub fn new(out: Out, back: In) -> RingCarrier
        ensures { result ≡ record { out = out; back = back; count = 0 } }
    {
        RingCarrier {
            out,
            back,
            count: 0,
        }
    }
}

impl Carrier for RingCarrier {
    ghost puts = { λ c. letters_put c.out };

    ghost gives = { λ c. letters_taken c.back };

    ghost pair = { λ c d. IsLink c.out d.back × IsLink d.out c.back };

    ghost stuffed = { λ c. free_slots c.out == 0 };

    ghost known = { λ c. length (known_letters c.back) };

    ghost total = { λ c. c.count };

    fn put(&mut self, letter: Letter) -> Option<Letter> {
        self.out.put(letter)
    }

    #[inline(always)]
    fn take(&mut self) -> Option<Letter> {
        match self.back.take() {
            Some(letter) => {
                self.count = self.count.saturating_add(1);
                Some(letter)
            }
            None => None,
        }
    }

    fn taken(&self) -> u64 {
        self.count
    }

    /// It does nothing: what has come is on the ring.
    #[inline(always)]
    fn ready(&mut self) -> Result<(), NoMemory> {
        Ok(())
    }

    #[tactic(auto, using(crate::proofs::LinkLemmas::met))]
    fn meet(&mut self, other: &mut RingCarrier) -> Result<bool, NoMemory> {
        let there = self.out.meet(&mut other.back);
        let back = other.out.meet(&mut self.back);
        if !there {
            return Ok(false);
        }
        Ok(back)
    }

    #[tactic(auto, using(crate::proofs::LinkLemmas::met))]
    fn meet_own(&mut self) -> Result<bool, NoMemory> {
        Ok(self.out.meet(&mut self.back))
    }
}
