// What answers a sight with a choice.
use mem_usher::{Choice, Sight};

/// What answers a sight with a choice.
pub trait Chooser {
    ghost use Rattle.std.specs.Prelude.{Option};
    ghost use Rattle.mem_usher.specs.declared.sight.Sight.{Sight};
    ghost use Rattle.mem_usher.specs.declared.sight.Choice.{Choice};

    // It may be asked.
    ghost callable: { Self → Type 0 };

    // An answer that it may give on a sight.
    ghost answers: { Self → Sight → Option Choice → Type 0 };

    /// The answer on a sight.
    fn choose(&self, sight: &Sight) -> Option<Choice>
        requires { callable self.now }
        ensures { answers self.now sight.now result };
}
