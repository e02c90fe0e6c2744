// The top call under the usher, as the program makes it.
ghost use Rattle.std.specs.Prelude.{◌≡◌, ◌⊎◌};
ghost use Rattle.outside.specs.Outside.{Rose};
ghost use Rattle.mosix_words.specs.Settings.{settings_of};
ghost use Rattle.mosix_shell.specs.Told.{seen};
ghost use Rattle.mosix_shell.specs.Why.{status_of};
ghost use Rattle.mosix_shell.specs.Ushering.{ushered};
ghost use Rattle.mosix_shell.specs.Answers.{Answers};

use crate::mosix::Ended;
use crate::threads::mosix;
use crate::why::Why;
use call_table::Words;
use outside::{Gate, Images, Sink, Source};
use policy_box::usher_policy;
use rand_core::Rng;
use std::alloc::Global;
use std::sync::Wait;
use std::thread::Threads;

/// All that the program does, by its words without its own name: `mosix`, where each move that a node chooses is the best choice.
pub fn mosix_usher<H: Threads + Wait + Sync, S: Source, I: Images, O: Sink, R: Rng, G: Gate + Sync>(
    rt: &H,
    alloc: Global,
    words: &Words,
    script: &mut S,
    images: &mut I,
    out: &mut O,
    rng: &mut R,
    gate: &G,
) -> Ended
    ensures status { result.status ≡ status_of result.why }
    ensures answers { Answers ushered (R.stream rng.old) (settings_of words.now) (seen S.left S.faults script.old script.new) (seen I.files I.faults images.old images.new) (seen O.written O.faults out.old out.new) result }
    ensures read { result.why ≡ Why.ReadFault → Rose (S.faults script.old) (S.faults script.new) ⊎ Rose (I.faults images.old) (I.faults images.new) }
    ensures write { result.why ≡ Why.WriteFault → Rose (O.faults out.old) (O.faults out.new) }
{
    let ended = mosix(
        rt,
        alloc,
        words,
        script,
        images,
        out,
        rng,
        gate,
        &usher_policy(),
    );
    ended
}
