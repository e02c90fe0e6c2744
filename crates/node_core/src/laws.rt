// What a node did by itself, in the words of the laws of a run.
ghost use Rattle.std.specs.Prelude.{List};
ghost use Rattle.node_machine.specs.Plan.{Plan};
ghost use Rattle.node_machine.specs.Policy.{given_by};
ghost use Rattle.node_core.specs.Alone.{TurnMade, HasTurned, DidAlone};
ghost use Rattle.node_core.specs.declared.node.Node.{Node};

use policy_box::{Chooser, Policy};

/// Whatever turns a node of a plan's cluster made under a policy, from its beginning on: what it did by itself is what the laws of a run ask of each of their nodes.
/// Each turn that did something is an act that the laws allow, with the stamp that clock and letter give, or skips an odd letter; the journal is that of the acts.
#[tactic(auto, using(crate::proofs::Alone::did_alone))]
pub fn laws_of_turns<C: Chooser>(_policy: &Policy<C>)
    ensures { (plan : Plan) (turns : List TurnMade) (n : Node) → HasTurned (given_by (C.answers _policy.now)) plan turns n → DidAlone (given_by (C.answers _policy.now)) plan turns n }
{}
