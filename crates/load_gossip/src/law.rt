// What holds of every vector.
ghost use Rattle.std.specs.Prelude.{List, Option};
ghost use Rattle.call_table.specs.declared.process.Entry.{Entry};
ghost use Rattle.load_gossip.specs.Honest.{Usage, IsMade, AreHonest};

/// The law of the vectors: one that is made of honest entries, by `renew` and by `hear` of halves of such vectors, has honest entries
/// alone. An entry is honest where its load and its free pages are those of its node right after the node's event of its stamp.
pub fn honest_vectors()
    ensures { (usage : Usage) (places : List (Option Entry)) → IsMade usage places → AreHonest usage places }
{}
