// The script of generated work.
ghost use Rattle.std.specs.Prelude.{◌≡◌, ◌≤◌, IfOk};
ghost use Rattle.work_gen.specs.Work.{run_line, run_lines, move_line, move_lines, script_text};

use crate::draw::IMAGES;
use call_table::{Bytes, NoMemory};
use std::alloc::Global;

/// How many processes are moved.
const MOVED: u32 = 4;

fn run_line(alloc: Global, index: u32) -> Result<Bytes, NoMemory>
    ensures { IfOk result (λ line. line ≡ run_line index) }
{
    let line = format!(in alloc; "run g{index}\n")?;
    Ok(Bytes::from_vec(line.into_bytes()))
}

fn run_lines(alloc: Global, count: u32) -> Result<Bytes, NoMemory>
    ensures { IfOk result (λ lines. lines ≡ run_lines 0 count) }
{
    let mut lines = Bytes::new(alloc);
    for index in 0..count {
        let line = run_line(alloc, index)?;
        lines.push_slice(line.as_slice())?;
    }
    Ok(lines)
}

fn move_line(alloc: Global, nodes: u8, pid: u32) -> Result<Bytes, NoMemory>
    requires { 1 ≤ nodes }
    ensures { IfOk result (λ line. line ≡ move_line nodes pid) }
{
    let to = pid % nodes as u32;
    let line = format!(in alloc; "move {pid} {to}\n")?;
    Ok(Bytes::from_vec(line.into_bytes()))
}

fn move_lines(alloc: Global, nodes: u8, count: u32) -> Result<Bytes, NoMemory>
    requires { 1 ≤ nodes }
    ensures { IfOk result (λ lines. lines ≡ move_lines nodes 1 count) }
{
    let mut lines = Bytes::new(alloc);
    for index in 0..count {
        let line = move_line(alloc, nodes, index + 1)?;
        lines.push_slice(line.as_slice())?;
    }
    Ok(lines)
}

/// It runs each image and moves the first processes, each by its pid to one of the nodes.
#[tactic(auto, unfolding(crate::specs::Work::script_text))]
pub fn script_text(alloc: Global, nodes: u8) -> Result<Bytes, NoMemory>
    requires { 1 ≤ nodes }
    ensures { IfOk result (λ script. script ≡ script_text nodes) }
{
    let mut script = run_lines(alloc, IMAGES)?;
    let moves = move_lines(alloc, nodes, MOVED)?;
    script.push_slice(moves.as_slice())?;
    Ok(script)
}
