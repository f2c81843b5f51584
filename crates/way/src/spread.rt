// Distances to the goal of a leg, which spread from it square by square.
use super::leg::Leg;
use super::sizes::{FAR, Queue, SQUARES, Table};
use field::Direction;

impl Leg<'_> {
    ghost use Rattle.std.specs.Prelude.{◌≡◌, suc, ◌+◌, ◌≤◌, length};
    ghost use Rattle.field.specs.Model.{field_of};
    ghost use Rattle.ways.specs.Good.{enter};
    ghost use Rattle.ways.specs.Distances.{unknown};
    ghost use Rattle.way.specs.Table.{Ready, Waiting, Spreads, Measured, Distance};

    // Whether the goal may be entered.
    #[tactic(auto, using(std::proofs::lemmas::Bool::Decides::nat_tests, crate::proofs::Size::open_is))]
    fn is_open(&self) -> bool
        ensures { result ≡ enter (field_of self.now.field) self.now.goal self.now.last self.now.goal }
    {
        self.ground[self.goal as usize] == FAR || (self.last && self.field.is_free(self.goal))
    }

    // Gives each square beside the one at this place of the queue that none has come to yet its distance, and puts it at the queue's end.
    fn expand(&self, head: usize, distances: &mut Table, queue: &mut Queue)
        requires { Waiting self.now distances.old queue.old.items head }
        ensures room { length queue.new.items + unknown distances.new ≤ 4096 }
        ensures spreading { Spreads self.now distances.new queue.new.items (suc head) }
    {
        let square = queue[head];
        let next = distances[square as usize] + 1;
        for direction in Direction::ALL {
            if let Some(to) = self.field.next(square, direction)
                && distances[to as usize] == FAR
            {
                distances[to as usize] = next;
                queue.push(to);
            }
        }
    }

    // Spreads the distances until the start's is known or none is left in the queue.
    fn spread(&self, distances: &mut Table)
        requires { Ready self.now distances.old }
        ensures { Measured self.now distances.new }
    {
        let mut queue = Queue::new();
        queue.push(self.goal);
        // The queue grows while it is gone through; one that gives up its first would need the heap.
        for head in 0..SQUARES {
            if head == queue.len() || distances[self.start as usize] != FAR {
                break;
            }
            self.expand(head, distances, &mut queue);
        }
    }

    // Makes the ground the distances of the leg, and answers the start's; nothing if no way leads to the goal.
    pub fn measure(&self, distances: &mut Table) -> Option<u16>
        requires { distances.old ≡ self.now.ground.now }
        ensures { Distance self.now distances.new result }
    {
        if !self.is_open() {
            return None;
        }
        distances[self.start as usize] = FAR;
        distances[self.goal as usize] = 0;
        self.spread(distances);
        let distance = distances[self.start as usize];
        (distance != FAR).then_some(distance)
    }
}
