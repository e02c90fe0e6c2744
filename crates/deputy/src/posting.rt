// What happened and what is posted, where that is a message at most.
ghost use Rattle.std.specs.Prelude.{◌≡◌, ◌∷◌, [], IfOk};
ghost use Rattle.deputy.specs.Calls.{poke_to};

use call_forward::{Acted, Mail, Message};
use call_table::NoMemory;
use node_event::What;
use std::alloc::Global;

/// An event without a message.
pub fn alone(alloc: Global, what: What) -> Acted
    ensures { result ≡ record { what = what; mail = [] } }
{
    Acted {
        what,
        mail: Mail::new(alloc),
    }
}

/// What does not fit.
pub fn strange(alloc: Global) -> Acted
    ensures { result ≡ record { what = What.Strange; mail = [] } }
{
    alone(alloc, What::Strange)
}

/// A message alone.
pub fn letter(alloc: Global, to: u8, message: Message) -> Result<Mail, NoMemory>
    ensures { IfOk result (λ mail. mail ≡ (to, message) ∷ []) }
{
    let mut mail = Mail::new(alloc);
    mail.push((to, message))?;
    Ok(mail)
}

/// A poke, if there is one.
pub fn poke_to(alloc: Global, place: u8, poked: Option<u32>) -> Result<Mail, NoMemory>
    ensures { IfOk result (λ mail. mail ≡ poke_to place poked) }
{
    match poked {
        Some(pid) => Ok(letter(alloc, place, Message::Poke { pid })?),
        None => Ok(Mail::new(alloc)),
    }
}
