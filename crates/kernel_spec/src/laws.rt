// Laws of the definitions.
ghost use Rattle.std.specs.Prelude.{◌≡◌, ◌≢◌, ◌<◌, ◌+◌, ℕ, Bool, true, false, Option, Some, None, is_none};
ghost use Rattle.call_table.specs.Calls.{is_signal_number, need_of};
ghost use Rattle.call_table.specs.declared.error.TheConstants.{ESRCH};
ghost use Rattle.call_table.specs.declared.process.End.{End};
ghost use Rattle.call_table.specs.declared.request.Request.{Request};
ghost use Rattle.fd_table.specs.Descriptors.{look_at};
ghost use Rattle.proc_tree.specs.Tree.{parent_of};
ghost use Rattle.signal_set.specs.Signals.{SignalState, child_signals, is_pending, act_of};
ghost use Rattle.kernel_spec.specs.Processes.{heeding, has_done, kill_result};
ghost use Rattle.kernel_spec.specs.Kernel.{KernelState, Input, Called, AfterTake, given, is_live, end_at, deliverable, has_room, with_end, with_raised, with_process, raised_by_end, take_result};
ghost use Rattle.kernel_spec.specs.Calls.{GivesPids, call_result, with_fork, broken};
ghost use Rattle.kernel_spec.specs.Answers.{fits_answer};
ghost use Rattle.kernel_spec.specs.Others.{LeavesOthers, LeavesProcesses, is_at, live_count};
ghost use Rattle.kernel_spec.specs.Waiting.{Waiting, ForChild, ForInput, HasPipe, has_come, awaited, still_waits, may_bring};

/// A forked child has the descriptions of its parent, its mask and its actions, and no signal is pending at it.
pub fn child_shares()
    ensures descriptions { (k : KernelState) (pid child fd : ℕ) → look_at (with_fork k pid child).io.fds child fd ≡ look_at k.io.fds pid fd }
    ensures mask { (state : SignalState) → (child_signals state).mask ≡ state.mask }
    ensures acts { (state : SignalState) (signal : ℕ) → act_of (child_signals state) signal ≡ act_of state signal }
    ensures pending { (state : SignalState) (signal : ℕ) → is_pending (child_signals state) signal ≡ false }
{}

/// No call, end or signal takes a pid back: a fork gives one, and nothing else that a process does gives one.
pub fn pids_only_grow()
    ensures calls { (k : KernelState) (pid : ℕ) (asked : Request) → GivesPids (call_result k pid asked) (given k) }
    ensures ends { (k : KernelState) (pid : ℕ) (e : End) → given (with_end k pid e) ≡ given k }
    ensures signals { (k : KernelState) (pid signal : ℕ) → given (with_raised k pid signal) ≡ given k }
{}

/// Only a process's own call, signal or fault ends it: a call, an end or a taken signal of p leaves all others alive that were, and makes nobody alive but the child
/// of a fork, which has the next pid and is made only while fewer than 64 live. Another process can take what it could before, unless it is told
/// that a signal was raised at it. What is typed changes nothing of this.
pub fn others_stay()
    ensures calls { (k : KernelState) (p : ℕ) (asked : Request) (called : Called) → call_result k p asked ≡ Some called → LeavesProcesses k p called }
    ensures ends { (k : KernelState) (p : ℕ) (e : End) → LeavesOthers k (with_end k p e) p None (raised_by_end k p) }
    ensures takes { (k : KernelState) (p : ℕ) (room : Bool) (after : AfterTake) → take_result k p room ≡ Some after → LeavesOthers k after.kernel p None after.raised }
    ensures input { (k : KernelState) (input : Input) (p : ℕ) → LeavesOthers k (record k { input = input }) p None None }
    ensures dead { (k : KernelState) (p : ℕ) (e : End) → is_live (with_end k p e) p ≡ false }
{}

/// A signal that is raised ends nobody, and can be taken at most by a process that lives and does not ignore it. Only a live process can take one, and it takes one exactly where it can.
pub fn signals_count_where_heeded()
    ensures live { (k : KernelState) (p signal q : ℕ) → is_live (with_raised k p signal) q ≡ is_live k q }
    ensures quiet { (k : KernelState) (p signal q : ℕ) → is_at (heeding k.processes p signal) q ≡ false → deliverable (with_raised k p signal) q ≡ deliverable k q }
    ensures lives { (k : KernelState) (p signal : ℕ) → deliverable k p ≡ Some signal → is_live k p ≡ true }
    ensures none { (k : KernelState) (p : ℕ) (room : Bool) → deliverable k p ≡ None → take_result k p room ≡ None }
{}

/// A launch gives the next pid to a process that lives, only while fewer than 64 live, and leaves all others.
pub fn launches_add_one()
    ensures live { (k : KernelState) (q : ℕ) → q ≢ given k + 1 → is_live (with_process k) q ≡ is_live k q }
    ensures new { (k : KernelState) → is_live (with_process k) (given k + 1) ≡ true }
    ensures quiet { (k : KernelState) (q : ℕ) → q ≢ given k + 1 → deliverable (with_process k) q ≡ deliverable k q }
    ensures few { (k : KernelState) → has_room k ≡ true → live_count k < 64 }
{}

/// A pid above those that were given is nobody's: nothing is known of it, and nothing that is done at it changes anything.
pub fn none_above()
    ensures live { (k : KernelState) (q : ℕ) → given k < q → is_live k q ≡ false }
    ensures ended { (k : KernelState) (q : ℕ) → given k < q → end_at k q ≡ None }
    ensures signals { (k : KernelState) (q : ℕ) → given k < q → deliverable k q ≡ None }
    ensures ends { (k : KernelState) (q : ℕ) (e : End) → given k < q → with_end k q e ≡ k }
    ensures raises { (k : KernelState) (q signal : ℕ) → given k < q → with_raised k q signal ≡ k }
    ensures kills { (k : KernelState) (p q signal : ℕ) → given k < q → is_signal_number signal ≡ true → kill_result k.processes p q signal ≡ has_done k.processes ESRCH }
{}

/// Every answer has the kind and the bytes that its call can get, that of a call which is broken off too.
pub fn answers_fit()
    ensures answered { (k : KernelState) (p : ℕ) (asked : Request) (called : Called) (sp : ℕ) → call_result k p asked ≡ Some called → fits_answer asked.number (need_of asked.number asked.args sp) called.answer ≡ true }
    ensures broken { (k : KernelState) (p : ℕ) (asked : Request) (sp : ℕ) → call_result k p asked ≡ None → fits_answer asked.number (need_of asked.number asked.args sp) (broken k).answer ≡ true }
{}

/// A call blocks exactly where what it waits for has not come, and it waits for the same after every step of another process.
pub fn blocks_until_it_comes()
    ensures exactly { (k : KernelState) (p : ℕ) (asked : Request) → is_none (call_result k p asked) ≡ still_waits (awaited k p asked) k p }
    ensures calls { (k : KernelState) (p q : ℕ) (asked other : Request) (called : Called) (waiting : Waiting) → is_live k p ≡ true → p ≢ q → call_result k q other ≡ Some called → awaited k p asked ≡ Some waiting → awaited called.kernel p asked ≡ Some waiting }
    ensures ends { (k : KernelState) (p q : ℕ) (asked : Request) (e : End) (waiting : Waiting) → is_live k p ≡ true → p ≢ q → awaited k p asked ≡ Some waiting → awaited (with_end k q e) p asked ≡ Some waiting }
    ensures takes { (k : KernelState) (p q : ℕ) (asked : Request) (room : Bool) (after : AfterTake) (waiting : Waiting) → is_live k p ≡ true → p ≢ q → take_result k q room ≡ Some after → awaited k p asked ≡ Some waiting → awaited after.kernel p asked ≡ Some waiting }
    ensures raises { (k : KernelState) (p q signal : ℕ) (asked : Request) (waiting : Waiting) → awaited k p asked ≡ Some waiting → awaited (with_raised k q signal) p asked ≡ Some waiting }
    ensures input { (k : KernelState) (p : ℕ) (input : Input) (asked : Request) → awaited (record k { input = input }) p asked ≡ awaited k p asked }
{}

/// What comes to a process that waits comes by these steps of others alone. A call: an exit for a child; a write into the pipe, or the closing of its last writer, for bytes;
/// a read of the pipe, or the closing of its last reader, for room. The end of another process: its own parent for a child, and no typed bytes. No raised signal brings anything,
/// and what is typed brings nothing but itself.
pub fn what_may_come()
    ensures calls { (k : KernelState) (p q : ℕ) (other : Request) (called : Called) (waiting : Waiting) → is_live k p ≡ true → p ≢ q → call_result k q other ≡ Some called → HasPipe waiting k → may_bring waiting other.number ≡ false → has_come waiting k p ≡ false → has_come waiting called.kernel p ≡ false }
    ensures children { (k : KernelState) (p q : ℕ) (e : End) → is_live k p ≡ true → p ≢ q → parent_of k.processes.tree q ≢ p → has_come ForChild k p ≡ false → has_come ForChild (with_end k q e) p ≡ false }
    ensures typed { (k : KernelState) (p q : ℕ) (e : End) → p ≢ q → has_come ForInput k p ≡ false → has_come ForInput (with_end k q e) p ≡ false }
    ensures raises { (k : KernelState) (p q signal : ℕ) (waiting : Waiting) → HasPipe waiting k → has_come waiting k p ≡ false → has_come waiting (with_raised k q signal) p ≡ false }
    ensures input { (k : KernelState) (p : ℕ) (input : Input) (waiting : Waiting) → waiting ≢ ForInput → has_come waiting k p ≡ false → has_come waiting (record k { input = input }) p ≡ false }
{}
