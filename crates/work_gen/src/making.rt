// From a seed to the work.
ghost use Rattle.std.specs.Prelude.{◌≡◌, ◌≤◌, IfOk, IfErr};
ghost use Rattle.work_gen.specs.Work.{AreImages, IsNoWorkOf, IsWork, IsNoWork};

use crate::draw::{Draw, draws_of};
use crate::error::WorkError;
use crate::image::image;
use crate::made::Work;
use crate::script::script_text;
use call_table::Names;
use std::alloc::Global;

/// The images of draws, each under its number.
fn images(alloc: Global, draws: &[Draw]) -> Result<Names, WorkError>
    ensures ok { IfOk result (λ images. AreImages 0 draws.now images) }
    ensures refused { IfErr result (λ error. IsNoWorkOf draws.now error) }
{
    let mut images = Names::new(alloc);
    for draw in draws {
        let image = match image(alloc, images.len(), *draw) {
            Ok(image) => image,
            Err(error) => return Err(error),
        };
        match images.push(image) {
            Ok(()) => {}
            Err(_) => return Err(WorkError::NoMemory),
        }
    }
    Ok(images)
}

/// The work of a seed: sixteen images, `g0` to `g15`, and the script that runs them and moves the first four processes among so many nodes.
/// Each image has a kind and a size, both drawn from the seed: it counts down, forks a child that it reads from, writes a file, or handles a
/// signal; then it writes one byte to the terminal and exits by its size modulo 251.
///
/// Refused where the assembler refuses the text of an image.
pub fn work(alloc: Global, seed: u64, nodes: u8) -> Result<Work, WorkError>
    requires { 1 ≤ nodes }
    ensures ok { IfOk result (λ w. IsWork seed nodes w) }
    ensures refused { IfErr result (λ error. IsNoWork seed error) }
{
    let Ok(script) = script_text(alloc, nodes) else {
        return Err(WorkError::NoMemory);
    };
    let Ok(draws) = draws_of(alloc, seed) else {
        return Err(WorkError::NoMemory);
    };
    match images(alloc, draws.as_slice()) {
        Ok(images) => Ok(Work { script, images }),
        Err(error) => Err(error),
    }
}
