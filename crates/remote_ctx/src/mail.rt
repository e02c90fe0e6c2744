// What is posted.
ghost use Rattle.std.specs.Prelude.{◌≡◌, [], ◌∷◌, IfOk};
ghost use Rattle.node_event.specs.declared.event.What.TheVariants as what;

use call_forward::{Acted, Mail, Message};
use call_table::NoMemory;
use node_event::What;
use std::alloc::Global;

/// A message that does not fit.
pub fn strange(alloc: Global) -> Acted
    ensures what { result.what ≡ what.Strange }
    ensures mail { result.mail ≡ [] }
{
    Acted {
        what: What::Strange,
        mail: Mail::new(alloc),
    }
}

/// One message to a node.
pub fn one(alloc: Global, to: u8, message: Message) -> Result<Mail, NoMemory>
    ensures { IfOk result (λ mail. mail ≡ (to, message) ∷ []) }
{
    let mut mail = Mail::new(alloc);
    mail.push((to, message))?;
    Ok(mail)
}
