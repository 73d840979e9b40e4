// A step's decision: the front block read, its refusals, and the outcomes of its children, one after the other. Nothing is written.
ghost use Rattle.std.specs.Prelude.{◌≡◌, true, leb, length};
ghost use Rattle.queue.specs.Queue.{taken};
ghost use Rattle.decide.specs.Children.{children_of};
ghost use Rattle.decide.specs.Damage.{legal_chosen};
ghost use Rattle.plan.specs.AtOnce.{judged_of};
ghost use Rattle.implicit.specs.Record.{pixel_count};
ghost use Rattle.implicit.specs.Step.{block_sound, enough_verdicts};
ghost use Rattle.implicit.specs.StepComputed.{block_check, decision_judged, decision_on, decision_of};

use crate::record::pixel_count;
use decide::{Chosen, Cut, cut_of, has_damaged_cell};
use plan::{Judged, judge_children};
use queue::{Block, Last, Peeked};
use refusal::Refusal;

// What a step is carried out with: the front block, the head and the use once it is taken, how it is cut, and the outcomes of its children.
#[derive(Clone, Copy)]
pub(crate) struct Decided {
    pub block: Block,
    pub head: usize,
    pub used: usize,
    pub cut: Cut,
    pub judged: Judged,
}

// What the step is carried out with, by a record that is sound or not and has a block left or not.
pub(crate) fn decide(
    p: Chosen,
    sound: bool,
    left: bool,
    ring: &[u8],
    head: usize,
    used: usize,
    front: Last,
    cells: &[u64],
    verdicts: &[u8],
    tape: bool,
) -> Result<Decided, Refusal>
    requires { sound ≡ true → legal_chosen p ≡ true }
    ensures { result ≡ decision_of p sound left (taken ring.now head used p.set front) cells.now tape verdicts.now }
{
    if !sound {
        return Err(Refusal::Damaged);
    }
    if cells.len() < pixel_count(p) {
        return Err(Refusal::Cells);
    }
    if !left {
        return Err(Refusal::Empty);
    }
    match queue::peek(ring, head, used, p.set, front) {
        Ok(Peeked { block, head, used }) => {
            decide_block(p, cells, verdicts, tape, block, head, used)
        }
        Err(_) => Err(Refusal::Damaged),
    }
}

// The decision on a block that was read.
fn decide_block(
    p: Chosen,
    cells: &[u64],
    verdicts: &[u8],
    tape: bool,
    b: Block,
    head: usize,
    used: usize,
) -> Result<Decided, Refusal>
    requires { (leb (pixel_count p) (length cells.now) ≡ true) × (legal_chosen p ≡ true) }
    ensures { result ≡ decision_on p cells.now tape verdicts.now b head used }
{
    let k = cut_of(p, b);
    let count = k.count;
    check_block(p, b, cells, count, verdicts.len(), tape)?;
    judge(p, cells, &verdicts[0..count], b, head, used, k)
}

// The block's own refusals, by the number of its children.
fn check_block(
    p: Chosen,
    b: Block,
    cells: &[u64],
    children: usize,
    verdicts: usize,
    tape: bool,
) -> Result<(), Refusal>
    requires { (leb (pixel_count p) (length cells.now) ≡ true) × (legal_chosen p ≡ true) × (children ≡ length (children_of p b)) }
    ensures { result ≡ block_check p b cells.now children verdicts tape }
{
    if !is_sound_block(p, b, cells, children) {
        return Err(Refusal::Damaged);
    }
    if !has_enough(tape, children, verdicts) {
        return Err(Refusal::Verdicts);
    }
    Ok(())
}

// Whether neither the block nor a cell that it covers is damaged: a damaged block, and no other, has no child.
fn is_sound_block(p: Chosen, b: Block, cells: &[u64], children: usize) -> bool
    requires { (leb (pixel_count p) (length cells.now) ≡ true) × (legal_chosen p ≡ true) × (children ≡ length (children_of p b)) }
    ensures { result ≡ block_sound p cells.now b }
{
    !has_damaged_cell(p, b, cells).unwrap_or(true) & (0 < children)
}

fn has_enough(tape: bool, children: usize, verdicts: usize) -> bool
    ensures { result ≡ enough_verdicts tape children verdicts }
{
    if tape {
        children <= verdicts
    } else {
        verdicts == children
    }
}

// The outcomes of the children, one after the other, unless a verdict is not legal.
fn judge(
    p: Chosen,
    cells: &[u64],
    verdicts: &[u8],
    b: Block,
    head: usize,
    used: usize,
    k: Cut,
) -> Result<Decided, Refusal>
    ensures { result ≡ decision_judged b head used k (judged_of p b k verdicts.now cells.now) }
{
    let j = judge_children(p, b, k, verdicts, cells);
    if !j.legal {
        return Err(Refusal::Verdict);
    }
    Ok(Decided {
        block: b,
        head,
        used,
        cut: k,
        judged: j,
    })
}
