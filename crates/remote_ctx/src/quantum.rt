// A quantum of steps.
ghost use Rattle.std.specs.Prelude.{◌≡◌, ◌≤◌, IfOk, OnErr};
ghost use Rattle.remote_ctx.specs.Acting.{RanAs};

use call_table::NoMemory;
use user_ctx::{Stop, User};

/// How a turn of a process comes out.
#[derive(Clone, Copy, Debug, PartialEq, Eq)]
pub enum Ran {
    /// It made so many steps, at least one.
    Steps(u32),
    /// It is at a forwarded call.
    AtCall,
    /// It is at a fault.
    AtFault,
}

/// At most a quantum of steps, up to a forwarded call, a fault, or a growth that is not the first of them. Where memory is not found nothing changes.
pub fn go(user: &mut User, quantum: u32) -> Result<Ran, NoMemory>
    requires { 1 ≤ quantum }
    ensures ok { IfOk result (λ ran. RanAs ran quantum user.old user.new) }
    ensures err { OnErr result (user.new ≡ user.old) }
{
    let (went, stop) = user.run(quantum);
    if went > 0 {
        return Ok(Ran::Steps(went));
    }
    match stop {
        Stop::Went => Ok(Ran::Steps(0)),
        Stop::AtCall => Ok(Ran::AtCall),
        Stop::Fault(_) => Ok(Ran::AtFault),
        Stop::Grows => {
            user.grow()?;
            let (more, _) = user.run(quantum - 1);
            Ok(Ran::Steps(more + 1))
        }
    }
}
