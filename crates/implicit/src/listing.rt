// The children of the front block, which an evaluator asks for before it answers. Added: the Rust evaluates inside the step.
ghost use Rattle.std.specs.Prelude.{◌≡◌, true};
ghost use Rattle.decide.specs.Damage.{legal_chosen};
ghost use Rattle.implicit.specs.Listing.{front_of, listed_block, listed_from, children_listed};

use crate::record::is_sound;
use crate::state::State;
use decide::{Children, Chosen, children_of};
use queue::Block;
use refusal::Refusal;

// The children of the front block, in order; what it reads is the bytes used.
pub fn children(s: State, ring: &[u8]) -> Result<Children, Refusal>
    ensures { result ≡ children_listed s ring.now }
{
    if !is_sound(ring.len(), s) {
        return Err(Refusal::Damaged);
    }
    if s.queued <= s.taken {
        return Err(Refusal::Empty);
    }
    list_front(s, ring)
}

fn list_front(s: State, ring: &[u8]) -> Result<Children, Refusal>
    requires { legal_chosen s.chosen ≡ true }
    ensures { result ≡ listed_from s (front_of s ring.now) }
{
    let p = s.chosen;
    let read = queue::peek(ring, s.head, s.used, p.set, s.front)?;
    list_block(p, read.block)
}

// A damaged block, and no other, has no child.
fn list_block(p: Chosen, b: Block) -> Result<Children, Refusal>
    requires { legal_chosen p ≡ true }
    ensures { result ≡ listed_block p b }
{
    let kids = children_of(p, b);
    if 0 < kids.count {
        Ok(kids)
    } else {
        Err(Refusal::Damaged)
    }
}
