// The images of a script's `run` lines, loaded in the order of the lines.
ghost use Rattle.std.specs.Prelude.{◌≡◌, ◌≤◌, Ok, Err, IfOk, IfErr, OnOk};
ghost use Rattle.outside.specs.Outside.{Rose};
ghost use Rattle.elf_load.specs.Image.{start_size, image_of};
ghost use Rattle.mosix_shell.specs.Orders.{FitsStack, FitStacks};
ghost use Rattle.mosix_shell.specs.Images.{name_of, runs_of, by_fault, IsKindOf, IsImageOf, IsImageRefused, refusal_of, AddsImage, IsLineRefused, AreImagesOf, IsUnloaded};

use crate::why::Why;
use call_table::Words;
use elf_load::{LoadError, load};
use node_event::{Order, ScriptLine};
use outside::{Images, LoadFault};
use std::alloc::Global;
use user_ctx::{User, Users};

/// The kinds of an image that is absent or too long, beside those of its file.
const ABSENT: u8 = 12;

const TOO_LONG: u8 = 13;

/// Why an image was not had.
#[derive(Clone, Copy, Debug, PartialEq, Eq)]
pub enum Unloaded {
    /// It was refused: kind 1 to 11 by its file, 12 where it is absent, 13 where it is too long.
    Refused(u8),
    Failed,
    WantsMemory,
}

fn by_fault(fault: LoadFault) -> Unloaded
    ensures { result ≡ by_fault fault }
{
    match fault {
        LoadFault::Absent => Unloaded::Refused(ABSENT),
        LoadFault::TooLong => Unloaded::Refused(TOO_LONG),
        LoadFault::Failed => Unloaded::Failed,
        LoadFault::NoMemory => Unloaded::WantsMemory,
    }
}

/// The name of an image: the first word.
fn name_of(words: &Words) -> &str
    ensures { result.now ≡ name_of words.now }
{
    match words.as_slice() {
        [name, ..] => name.as_str(),
        [] => "",
    }
}

/// The process of a file and words.
fn load_file(alloc: Global, file: &[u8], words: &Words) -> Result<User, Unloaded>
    requires { start_size words.now ≤ 8192 }
    ensures user { IfOk result (λ user. image_of file.now words.now ≡ Ok user) }
    ensures refused { IfErr result (IsKindOf (image_of file.now words.now)) }
{
    match load(alloc, file, words) {
        Ok(user) => Ok(user),
        Err(LoadError::Image(fault)) => Err(Unloaded::Refused(fault.number())),
        Err(LoadError::NoMemory) => Err(Unloaded::WantsMemory),
    }
}

/// The process of words, the first of which names its file.
#[tactic(auto, using(crate::proofs::Loading::image_is, crate::proofs::Loading::kind_told, crate::proofs::Loading::missed_told, crate::proofs::Loading::failed_by))]
fn load_user<I: Images>(alloc: Global, images: &mut I, words: &Words) -> Result<User, Unloaded>
    requires { start_size words.now ≤ 8192 }
    ensures user { IfOk result (IsImageOf (I.files images.old) words.now) }
    ensures refused { IfErr result (IsImageRefused (I.files images.old) words.now) }
    ensures files { I.files images.new ≡ I.files images.old }
    ensures later { I.faults images.old ≤ I.faults images.new }
    ensures fault { result ≡ Err Unloaded.Failed → Rose (I.faults images.old) (I.faults images.new) }
{
    let file = match images.load(alloc, name_of(words)) {
        Ok(file) => file,
        Err(fault) => return Err(by_fault(fault)),
    };
    match load_file(alloc, file.as_slice(), words) {
        Ok(user) => Ok(user),
        Err(e) => Err(e),
    }
}

/// The answer of a line whose image was not had.
fn refusal(line: u32, e: Unloaded) -> Why
    ensures { result ≡ refusal_of line e }
{
    match e {
        Unloaded::Refused(kind) => Why::BadImage { line, kind },
        Unloaded::Failed => Why::ReadFault,
        Unloaded::WantsMemory => Why::NoMemory,
    }
}

/// Adds the process of a line of this number and these words.
#[tactic(auto, using(crate::proofs::Loading::line_refused, crate::proofs::Loading::refusal_failed))]
fn load_run<I: Images>(
    alloc: Global,
    images: &mut I,
    line: u32,
    words: &Words,
    users: &mut Users,
) -> Result<(), Why>
    requires { start_size words.now ≤ 8192 }
    ensures ok { OnOk result (AddsImage (I.files images.old) (Order.Run words.now) users.old users.new) }
    ensures err { IfErr result (IsLineRefused (I.files images.old) line (Order.Run words.now)) }
    ensures files { I.files images.new ≡ I.files images.old }
    ensures later { I.faults images.old ≤ I.faults images.new }
    ensures fault { result ≡ Err Why.ReadFault → Rose (I.faults images.old) (I.faults images.new) }
{
    let user = match load_user(alloc, images, words) {
        Ok(user) => user,
        Err(e) => return Err(refusal(line, e)),
    };
    match users.push(user) {
        Ok(()) => Ok(()),
        Err(_) => Err(Why::NoMemory),
    }
}

/// Adds the process of a line, where it launches one.
fn load_line<I: Images>(
    alloc: Global,
    images: &mut I,
    ordered: &ScriptLine,
    users: &mut Users,
) -> Result<(), Why>
    requires { FitsStack ordered.now.order }
    ensures ok { OnOk result (AddsImage (I.files images.old) ordered.now.order users.old users.new) }
    ensures err { IfErr result (IsLineRefused (I.files images.old) ordered.now.line ordered.now.order) }
    ensures files { I.files images.new ≡ I.files images.old }
    ensures later { I.faults images.old ≤ I.faults images.new }
    ensures fault { result ≡ Err Why.ReadFault → Rose (I.faults images.old) (I.faults images.new) }
{
    match &ordered.order {
        Order::Run { words } => match load_run(alloc, images, ordered.line, words, users) {
            Ok(()) => Ok(()),
            Err(why) => Err(why),
        },
        _ => Ok(()),
    }
}

/// The processes of the script's `run` lines, or the first line whose image is refused.
pub fn load_users<I: Images>(
    alloc: Global,
    images: &mut I,
    orders: &[ScriptLine],
) -> Result<Users, Why>
    requires { FitStacks orders.now }
    ensures users { IfOk result (AreImagesOf (I.files images.old) (runs_of orders.now)) }
    ensures refused { IfErr result (IsUnloaded (I.files images.old) (runs_of orders.now)) }
    ensures files { I.files images.new ≡ I.files images.old }
    ensures later { I.faults images.old ≤ I.faults images.new }
    ensures fault { result ≡ Err Why.ReadFault → Rose (I.faults images.old) (I.faults images.new) }
{
    let mut users = Users::new(alloc);
    for ordered in orders {
        match load_line(alloc, images, ordered, &mut users) {
            Ok(()) => {}
            Err(why) => return Err(why),
        }
    }
    Ok(users)
}
