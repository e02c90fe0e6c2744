// The laws of a run, of this machine: for every plan, and for every chooser of moves each of whose choices fits its sight.
ghost use Rattle.protocol.specs.Ops.{Sound};
ghost use Rattle.run_laws.specs.Going.{Able};
ghost use Rattle.policy_box.specs.Policies.{ChoosesFit};
ghost use Rattle.node_machine.specs.Plan.{Plan, IsPlan};
ghost use Rattle.node_machine.specs.Machine.{machine};
ghost use Rattle.node_machine.specs.Policy.{given_by, HasAnswers};
ghost use Rattle.node_machine.specs.Laws.{RunsHold, JournalsHold, NoneOdd, NoneSkips, LettersLie, RunsEnd, JournalsEnd, StaysHome};

use policy_box::Chooser;

/// The facts of the operations that the laws need hold of the machine.
pub fn machine_is_sound<C: Chooser>()
    ensures { (choose : C) (plan : Plan) → ChoosesFit C.answers choose → IsPlan plan → Sound (machine (given_by (C.answers choose)) plan) }
{}

/// And it can go on wherever something is due, if the chooser has an answer on each sight in range.
pub fn machine_is_able<C: Chooser>()
    ensures { (choose : C) (plan : Plan) → HasAnswers (C.answers choose) → IsPlan plan → Able (machine (given_by (C.answers choose)) plan) }
{}

/// Whatever the cluster does, turn after turn, all laws hold of its events, its letters are carried, and no letter is strange.
pub fn laws_of_runs<C: Chooser>()
    ensures { (choose : C) (plan : Plan) → ChoosesFit C.answers choose → IsPlan plan → RunsHold (machine (given_by (C.answers choose)) plan) }
{}

/// Whatever the nodes did, each by itself, and whatever each link lists: where their journals are put in order by stamp and node, all laws hold of that
/// list, its letters are carried, and no node skipped a letter as strange.
pub fn laws_of_journals<C: Chooser>()
    ensures { (choose : C) (plan : Plan) → ChoosesFit C.answers choose → IsPlan plan → JournalsHold (machine (given_by (C.answers choose)) plan) }
{}

/// Where each stamp is exactly one more than its node's clock and its letter's stamp, no letter that comes in fewer than 2^32 - 1 turns is odd.
pub fn no_odd_letters<C: Chooser>()
    ensures { (choose : C) (plan : Plan) → ChoosesFit C.answers choose → IsPlan plan → NoneOdd (machine (given_by (C.answers choose)) plan) }
{}

/// Nor does any node skip one where only its own order is known, and the journals have fewer than 2^32 - 1 events.
pub fn none_skipped<C: Chooser>()
    ensures { (choose : C) (plan : Plan) → ChoosesFit C.answers choose → IsPlan plan → NoneSkips (machine (given_by (C.answers choose)) plan) }
{}

/// How a run ends: where every link is empty and every node rests, it is done or stuck; and at each moment what a node can do without a letter is what is
/// due there by the events and the one-node machine. A letter lies on a link where one was posted and not taken.
pub fn end_of_runs<C: Chooser>()
    ensures letters { (choose : C) (plan : Plan) → ChoosesFit C.answers choose → IsPlan plan → LettersLie (machine (given_by (C.answers choose)) plan) }
    ensures ends { (choose : C) (plan : Plan) → ChoosesFit C.answers choose → IsPlan plan → RunsEnd (machine (given_by (C.answers choose)) plan) }
{}

/// And how it ends where the nodes did their turns by themselves and their journals are put in order.
pub fn end_of_journals<C: Chooser>()
    ensures { (choose : C) (plan : Plan) → ChoosesFit C.answers choose → IsPlan plan → JournalsEnd (machine (given_by (C.answers choose)) plan) }
{}

/// A run of one node stays at home: every event is at node 0, no process begins to move or has a move kept, and the node tells nobody of itself.
pub fn runs_of_one_node<C: Chooser>()
    ensures { (choose : C) (plan : Plan) → ChoosesFit C.answers choose → IsPlan plan → StaysHome (machine (given_by (C.answers choose)) plan) }
{}
