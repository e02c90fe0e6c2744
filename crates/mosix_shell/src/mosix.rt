// The top call.
ghost use Rattle.std.specs.Prelude.{◌≡◌, ◌⊎◌, Some, None, Err, IfOk, IfErr};
ghost use Rattle.outside.specs.Outside.{Rose};
ghost use Rattle.mosix_words.specs.Settings.{settings_of};
ghost use Rattle.node_machine.specs.Policy.{given_by};
ghost use Rattle.mosix_shell.specs.Told.{seen, kept};
ghost use Rattle.mosix_shell.specs.Why.{status_of, line_of};
ghost use Rattle.mosix_shell.specs.Writing.{writes_of, WritesLine};
ghost use Rattle.mosix_shell.specs.Orders.{FitStacks, IsScript};
ghost use Rattle.mosix_shell.specs.Ranges.{IsInRange};
ghost use Rattle.mosix_shell.specs.Answers.{Answers, AnswersIn, ScriptAnswers, RunAnswers, AsmAnswers, TellsWork};
ghost use Rattle.mosix_shell.specs.Parts.{IsRunFrom, IsUnrun, IsTold, TellsOrders};

use crate::assembling::assemble_source;
use crate::generating::work_of;
use crate::images::load_users;
use crate::kept::KeptImages;
use crate::orders::{orders_of, read_orders};
use crate::printing::{Form, print_run};
use crate::stage::run_users;
use crate::why::{Why, line_of, status_of, why_of_last};
use call_table::Words;
use mosix_words::{Mode, Settings, WordsError, mode_of};
use node_event::Script;
use outside::{Images, Sink, Source};
use policy_box::{Chooser, Policy};
use rand_core::Rng;
use shell_text::{PrintFault, Run, write_bytes};
use std::alloc::Global;
use work_gen::Work;

/// What the call answers. A run is there exactly where one was made to its end and its report or summary was written or failed to be:
/// at `Done`, `Stuck`, `JournalFull` and `WriteFault` of the modes `run` and `gen`.
#[derive(Drop)]
pub struct Ended {
    pub status: u8,
    pub why: Why,
    pub run: Option<Run>,
}

pub(crate) fn answer(why: Why, run: Option<Run>) -> Ended
    ensures { result ≡ record { status = status_of why; why = why; run = run } }
{
    Ended {
        status: status_of(why),
        why,
        run,
    }
}

/// Writes the line of an answer without a run.
pub(crate) fn refuse<O: Sink>(alloc: Global, out: &mut O, why: Why) -> Ended
    ensures status { result.status ≡ status_of result.why }
    ensures run { result.run ≡ None }
    ensures why { (result.why ≡ why) ⊎ (result.why ≡ Why.NoMemory) }
    ensures written { WritesLine (seen O.written O.faults out.old out.new) (line_of result.why) }
{
    let line = match line_of(alloc, why) {
        Ok(Some(line)) => line,
        Ok(None) => return answer(why, None),
        Err(_) => return answer(Why::NoMemory, None),
    };
    match out.write_all(line.as_slice()) {
        Ok(()) => answer(why, None),
        Err(_) => answer(why, None),
    }
}

// ---- a run

/// The run of a script's orders.
fn run_of<I: Images, R: Rng, P: Chooser>(
    alloc: Global,
    settings: &Settings,
    orders: &Script,
    images: &mut I,
    rng: &mut R,
    policy: &Policy<P>,
) -> Result<Run, Why>
    requires fit { FitStacks orders.now }
    requires range { IsInRange settings.now }
    requires script { IsScript settings.now.nodes orders.now }
    ensures run { IfOk result (IsRunFrom (given_by (P.answers policy.now)) (R.stream rng.old) settings.now (I.files images.old) orders.now) }
    ensures none { IfErr result (IsUnrun (I.files images.old) orders.now) }
    ensures files { I.files images.new ≡ I.files images.old }
    ensures fault { result ≡ Err Why.ReadFault → Rose (I.faults images.old) (I.faults images.new) }
{
    let users = match load_users(alloc, images, orders.as_slice()) {
        Ok(users) => users,
        Err(why) => return Err(why),
    };
    match run_users(alloc, settings, orders, users, rng, policy) {
        Ok(run) => Ok(run),
        Err(_) => Err(Why::NoMemory),
    }
}

/// Writes a run of these orders in a form.
pub(crate) fn tell<O: Sink>(
    alloc: Global,
    form: Form,
    orders: &Script,
    run: Run,
    out: &mut O,
) -> Ended
    ensures status { result.status ≡ status_of result.why }
    ensures told { IsTold (seen O.written O.faults out.old out.new) (writes_of form orders.now run) run result.run result.why }
{
    match print_run(alloc, form, &run, orders, out) {
        Ok(()) => answer(why_of_last(run.last), Some(run)),
        Err(PrintFault::Failed) => answer(Why::WriteFault, Some(run)),
        Err(PrintFault::NoMemory) => answer(Why::NoMemory, None),
    }
}

/// Runs a script's orders and writes the run in a form.
fn run_orders<I: Images, O: Sink, R: Rng, P: Chooser>(
    alloc: Global,
    settings: &Settings,
    form: Form,
    orders: &Script,
    images: &mut I,
    out: &mut O,
    rng: &mut R,
    policy: &Policy<P>,
) -> Ended
    requires fit { FitStacks orders.now }
    requires range { IsInRange settings.now }
    requires script { IsScript settings.now.nodes orders.now }
    ensures status { result.status ≡ status_of result.why }
    ensures files { I.files images.new ≡ I.files images.old }
    ensures tells { TellsOrders (given_by (P.answers policy.now)) (R.stream rng.old) form settings.now orders.now (seen I.files I.faults images.old images.new) (seen O.written O.faults out.old out.new) result.run result.why }
{
    match run_of(alloc, settings, orders, images, rng, policy) {
        Ok(run) => tell(alloc, form, orders, run, out),
        Err(why) => refuse(alloc, out, why),
    }
}

// ---- mode `run`

/// Mode `run`: from the script to the report.
fn run_script<S: Source, I: Images, O: Sink, R: Rng, P: Chooser>(
    alloc: Global,
    settings: &Settings,
    script: &mut S,
    images: &mut I,
    out: &mut O,
    rng: &mut R,
    policy: &Policy<P>,
) -> Ended
    requires { IsInRange settings.now }
    ensures status { result.status ≡ status_of result.why }
    ensures answers { RunAnswers (given_by (P.answers policy.now)) (R.stream rng.old) settings.now (seen S.left S.faults script.old script.new) (seen I.files I.faults images.old images.new) (seen O.written O.faults out.old out.new) result }
{
    match read_orders(alloc, script, settings.nodes) {
        Ok(orders) => {
            let form = Form::Report {
                events: settings.events,
            };
            run_orders(alloc, settings, form, &orders, images, out, rng, policy)
        }
        Err(why) => refuse(alloc, out, why),
    }
}

// ---- mode `asm`

/// Mode `asm`: from the text to its file.
pub(crate) fn assemble_script<S: Source, I: Images, O: Sink>(
    alloc: Global,
    script: &mut S,
    images: &mut I,
    out: &mut O,
) -> Ended
    ensures status { result.status ≡ status_of result.why }
    ensures answers { AsmAnswers (seen S.left S.faults script.old script.new) (seen I.files I.faults images.old images.new) (seen O.written O.faults out.old out.new) result }
{
    let file = match assemble_source(alloc, script) {
        Ok(file) => file,
        Err(why) => return refuse(alloc, out, why),
    };
    match write_bytes(out, file.as_slice()) {
        Ok(()) => answer(Why::Done, None),
        Err(_) => answer(Why::WriteFault, None),
    }
}

// ---- mode `gen`

/// Runs the script of work by its images and writes the summary.
fn run_work<O: Sink, R: Rng, P: Chooser>(
    alloc: Global,
    settings: &Settings,
    work: Work,
    out: &mut O,
    rng: &mut R,
    policy: &Policy<P>,
) -> Ended
    requires { IsInRange settings.now }
    ensures status { result.status ≡ status_of result.why }
    ensures answers { ScriptAnswers (given_by (P.answers policy.now)) (R.stream rng.old) Form.Summary settings.now (kept work.script) (kept work.images) (seen O.written O.faults out.old out.new) result }
{
    let Work { script, images } = work;
    let mut images = KeptImages::new(alloc, images);
    match orders_of(alloc, script.as_slice(), settings.nodes) {
        Ok(orders) => run_orders(
            alloc,
            settings,
            Form::Summary,
            &orders,
            &mut images,
            out,
            rng,
            policy,
        ),
        Err(why) => refuse(alloc, out, why),
    }
}

/// Mode `gen`: from the seed to the summary. It reads nothing, and one thread makes all turns.
pub(crate) fn gen_work<O: Sink, R: Rng, P: Chooser>(
    alloc: Global,
    settings: &Settings,
    out: &mut O,
    rng: &mut R,
    policy: &Policy<P>,
) -> Ended
    requires { IsInRange settings.now }
    ensures status { result.status ≡ status_of result.why }
    ensures work { TellsWork (given_by (P.answers policy.now)) (R.stream rng.old) settings.now (seen O.written O.faults out.old out.new) result }
{
    match work_of(alloc, settings) {
        Ok(work) => run_work(alloc, settings, work, out, rng, policy),
        Err(why) => refuse(alloc, out, why),
    }
}

// ---- all modes

/// What the words ask for.
pub(crate) fn run_settings<S: Source, I: Images, O: Sink, R: Rng, P: Chooser>(
    alloc: Global,
    settings: &Settings,
    script: &mut S,
    images: &mut I,
    out: &mut O,
    rng: &mut R,
    policy: &Policy<P>,
) -> Ended
    requires { IsInRange settings.now }
    ensures status { result.status ≡ status_of result.why }
    ensures answers { AnswersIn (given_by (P.answers policy.now)) (R.stream rng.old) settings.now.mode settings.now (seen S.left S.faults script.old script.new) (seen I.files I.faults images.old images.new) (seen O.written O.faults out.old out.new) result }
{
    match settings.mode {
        Mode::Run => run_script(alloc, settings, script, images, out, rng, policy),
        Mode::Asm => assemble_script(alloc, script, images, out),
        Mode::Gen => gen_work(alloc, settings, out, rng, policy),
    }
}

/// All that the program does, by its words without its own name, where one thread makes all turns of a run, whatever the words say of threads. A run's moves
/// are chosen by the policy, and its words of chance come from the seed that the words give, else from `rng`.
pub fn mosix_serial<S: Source, I: Images, O: Sink, R: Rng, P: Chooser>(
    alloc: Global,
    words: &Words,
    script: &mut S,
    images: &mut I,
    out: &mut O,
    rng: &mut R,
    policy: &Policy<P>,
) -> Ended
    ensures status { result.status ≡ status_of result.why }
    // What each mode promises, and words of no mode: `RunAnswers`, `AsmAnswers`, `GenAnswers`, `Refuses`.
    ensures answers { Answers (given_by (P.answers policy.now)) (R.stream rng.old) (settings_of words.now) (seen S.left S.faults script.old script.new) (seen I.files I.faults images.old images.new) (seen O.written O.faults out.old out.new) result }

    // A fault of reading or writing has its cause.
    ensures read { result.why ≡ Why.ReadFault → Rose (S.faults script.old) (S.faults script.new) ⊎ Rose (I.faults images.old) (I.faults images.new) }
    ensures write { result.why ≡ Why.WriteFault → Rose (O.faults out.old) (O.faults out.new) }
{
    match mode_of(alloc, words) {
        Ok(settings) => run_settings(alloc, &settings, script, images, out, rng, policy),
        Err(WordsError::BadWords) => refuse(alloc, out, Why::BadWords),
        Err(WordsError::NoMemory) => answer(Why::NoMemory, None),
    }
}
