// A node.
ghost use Rattle.std.specs.Prelude.{◌≡◌, ◌++◌, ◌==◌, [], reverse, option_to_list, Some, None, IfOk, IfNone, if◌then◌else◌, option_copied};
ghost use Rattle.node_core.specs.Making.{new_node, Beginning};
ghost use Rattle.node_core.specs.Suits.{Suits};
ghost use Rattle.node_core.specs.Letters.{any_to};
ghost use Rattle.node_machine.specs.Plan.{Plan as run_plan};

use crate::course::Course;
use crate::outbox::Outbox;
use crate::rotation::{Kind, Rotation};
use crate::shape::{Plan, Shape};
use crate::talk::Talk;
use call_forward::Letter;
use call_table::{ListOf, NoMemory};
use deputy::Deputies;
use load_gossip::Vector;
use migrate_proto::Reserve;
use node_event::{Journal, Script};
use rand_core::SeedableRng;
use rand_pcg::Pcg32;
use remote_ctx::Hosted;
use std::alloc::Global;
use user_ctx::Users;

/// A node of a cluster. Node 0 is home, and keeps the processes' deputies and the script. Contracts see what it keeps, and `local` in
/// `specs/Locals.antt` what of that the laws of a run speak of.
#[derive(Drop)]
pub struct Node {
    pub(crate) id: u8,
    pub(crate) shape: Shape,
    pub(crate) clock: u64,
    pub(crate) hosted: Hosted,
    pub(crate) reserve: Reserve,
    pub(crate) deputies: Deputies,
    pub(crate) course: Course,
    pub(crate) talk: Talk,
    pub(crate) rotation: Rotation,
    pub(crate) journal: Journal,
    pub(crate) outbox: Outbox,
    pub(crate) strange: u64,
}

/// The contexts, the last one first.
fn reversed(users: Users) -> Users
    ensures { result ≡ reverse users }
{
    let mut items = users.into_vec();
    items.reverse();
    Users::from_vec(items)
}

impl Node {
    /// A node that has done nothing.
    fn new(
        alloc: Global,
        id: u8,
        shape: Shape,
        script: Script,
        users: Users,
    ) -> Result<Node, NoMemory>
        ensures { IfOk result (λ node. node ≡ new_node id shape script users) }
    {
        Ok(Node {
            id,
            shape,
            clock: 0,
            hosted: Hosted::new(alloc),
            reserve: Reserve::new(alloc)?,
            deputies: Deputies::new(alloc)?,
            course: Course {
                script,
                users: reversed(users),
                done: 0,
                line: 0,
                launched: ListOf::new(alloc),
            },
            talk: Talk {
                vector: Vector::new(),
                sent: 0,
                steps: 0,
                load: 0,
                free: 0,
                chance: Pcg32::seed_from_u64(shape.word),
            },
            rotation: Rotation {
                last: Kind::Half,
                after: 0,
            },
            journal: Journal::new(alloc, shape.journal)?,
            outbox: Outbox::new(alloc),
            strange: 0,
        })
    }

    /// Home, before anything happened, of a cluster of this shape and with this to carry out. It takes the memory for its journal.
    pub fn home(alloc: Global, shape: Shape, plan: Plan) -> Result<Node, NoMemory>
        ensures new { IfOk result (λ node. node ≡ new_node 0 shape plan.script plan.users) }
        ensures suits { IfOk result (λ node. (run : run_plan) → Beginning run 0 shape plan.script plan.users → Suits run node) }
    {
        let Plan { script, users } = plan;
        Node::new(alloc, 0, shape, script, users)
    }

    /// Another node, before anything happened, of a cluster of this shape. It takes the memory for its journal.
    pub fn away(alloc: Global, id: u8, shape: Shape) -> Result<Node, NoMemory>
        ensures new { IfOk result (λ node. node ≡ new_node id shape [] []) }
        ensures suits { IfOk result (λ node. (run : run_plan) → Beginning run id shape [] [] → Suits run node) }
    {
        Node::new(alloc, id, shape, Script::new(alloc), Users::new(alloc))
    }

    /// Takes the first letter out that it posted. None exactly where there is none.
    pub fn next_out(&mut self) -> Option<Letter>
        ensures letters { self.old.outbox ≡ option_to_list result ++ self.new.outbox }
        ensures none { IfNone result (self.old.outbox ≡ []) }
        ensures rest { self.new ≡ record self.old { outbox = self.new.outbox } }
    {
        self.outbox.pop()
    }

    /// Whether a letter to a node is among those that it posted and that were not taken out.
    pub fn has_out(&self, node: u8) -> bool
        ensures { result ≡ any_to node self.now.outbox }
    {
        self.outbox.has_to(node)
    }

    /// Its number: 0 is home.
    pub fn id(&self) -> u8
        ensures { result ≡ self.now.id }
    {
        self.id
    }

    /// How many letters came that did not fit, or 2^64 - 1 where they are more.
    pub fn strange(&self) -> u64
        ensures { result ≡ self.now.strange }
    {
        self.strange
    }

    /// Its events.
    pub fn journal(&self) -> &Journal
        ensures { result.now ≡ self.now.journal }
    {
        &self.journal
    }

    /// The contexts at it.
    pub fn hosted(&self) -> &Hosted
        ensures { result.now ≡ self.now.hosted }
    {
        &self.hosted
    }

    /// The home side of the processes. None exactly away from home.
    pub fn deputies(&self) -> Option<&Deputies>
        ensures { option_copied result ≡ (if self.now.id == 0 then Some self.now.deputies else None) }
    {
        if self.id == 0 {
            Some(&self.deputies)
        } else {
            None
        }
    }

    /// Its events alone. The rest is dropped.
    pub fn into_journal(self) -> Journal
        ensures { result ≡ self.journal }
    {
        let Node { journal, .. } = self;
        journal
    }
}
