// One machine.
ghost use Rattle.node_machine.specs.Plan.{Plan};
ghost use Rattle.node_machine.specs.Policy.{given_by, never};
ghost use Rattle.same_machine.specs.Same.{PlaysSame};

use policy_box::Chooser;

/// For every plan and every list of steps the machine that `one_node::play` and `Home::apply` meet, and the one on which the laws of a run are said, give
/// the same: the same kernel, the same user state of each process and the same replies, and none in the same places. The policy has no part in it.
pub fn one_machine<C: Chooser>()
    ensures chosen { (choose : C) (plan : Plan) → PlaysSame (given_by (C.answers choose)) plan }
    ensures never { (plan : Plan) → PlaysSame never plan }
{}
