// What becomes of each child under its verdict, decided from the cells as given, before anything is written: only the outcomes are remembered.
// Document 01, "Picture and step"; from the Rust's `process_block`. There is no ring here, and no cell is written.
#![tactic(auto)]

ghost use Rattle.std.specs.Prelude.{◌≡◌, ◌≤◌, ◌<◌, min};
ghost use Rattle.decide.specs.Verdict.{cost_of, is_marking, is_incomplete};
ghost use Rattle.plan.specs.AtOnce.{alike_along, true_at, outcome_at, judged_of};
ghost use Rattle.plan.specs.PlanComputed.{incomplete_ones, judged_by, unjudged};

use coordinate::PIXEL_RANK;
use decide::{Chosen, Cut, Outcome, Place, cost_of, is_legal_verdict, judge, place_of};
use queue::{Block, Direction};

// The outcomes of the children in order, Skipped in the places behind them; how many are incomplete, the evaluations of them all, whether one marks its
// pixels, and whether every verdict is legal.
#[repr(C)]
#[derive(Clone, Copy)]
pub struct Judged {
    pub at: [Outcome; 4],
    pub incomplete: usize,
    pub evaluations: u64,
    pub marked: bool,
    pub legal: bool,
}

// The outcomes of the children of a block that is cut so, each by its verdict, in order. The picture, the block and the cut come from three places:
// a struct of them would be built for one call. It and the two below are inlined, so that the step has
// copies of its own beside explain's: with this one alone inlined, a step took a tenth more instructions.
#[inline(always)]
pub fn judge_children(p: Chosen, b: Block, k: Cut, verdicts: &[u8], cells: &[u64]) -> Judged
    ensures { result ≡ judged_of p b k verdicts.now cells.now }
{
    let here = Place { x: b.x, y: b.y };
    let same = is_alike(k.along, b.x.rank);
    let mut j = judge_none();
    let n = k.count.min(4).min(verdicts.len());
    for (i, v) in verdicts[..n].iter().enumerate() {
        let c = place_of(k, here, i);
        j = judge_child(p, same, j, i, c, *v, cells);
    }
    j
}

// Whether all children cover the same pixels: quarters above level 0 share none.
fn is_alike(along: Option<Direction>, rank: u8) -> bool
    ensures { result ≡ alike_along rank along }
{
    (along != Some(Direction::XY)) | (rank <= PIXEL_RANK)
}

// Before the first verdict.
fn judge_none() -> Judged
    ensures { result ≡ unjudged }
{
    Judged {
        at: [Outcome::Skipped; 4],
        incomplete: 0,
        evaluations: 0,
        marked: false,
        legal: true,
    }
}

// A child, by its place, with its verdict. It is skipped also where a child before it marked the same pixels.
// The bounds keep the sums in their types; a name for them would stand in two contracts alone.
#[inline(always)]
#[tactic(auto, using(decide::proofs::VerdictLaws::cost_of_child))]
fn judge_child(p: Chosen, same: bool, j: Judged, i: usize, c: Place, v: u8, cells: &[u64]) -> Judged
    requires { (i < 4) × (j.evaluations ≤ 18) × (j.incomplete ≤ 3) }
    ensures { result ≡ judged_by j i c.x.rank v (outcome_at p same cells.now j.marked c.x c.y v) }
{
    let all = is_all_true(p, c, cells) | (same & j.marked);
    note_outcome(j, i, c.x.rank, v, judge(c.x.rank, v, all))
}

// Whether every cell that a block here covers is True.
#[inline(always)]
#[tactic(auto, unfolding(crate::specs::AtOnce::true_at))]
fn is_all_true(p: Chosen, here: Place, cells: &[u64]) -> bool
    ensures { result ≡ true_at p here.x here.y cells.now }
{
    let r = image::rectangle(here.x, here.y, p.width, p.height);
    image::are_all_true(cells, p.width, p.height, r).unwrap_or(false)
}

// What becomes of child i, with all that is counted. The list alone is written at i, so that the counts need not go through memory.
#[tactic(auto, unfolding(crate::specs::PlanComputed::judged_by))]
fn note_outcome(j: Judged, i: usize, rank: u8, v: u8, o: Outcome) -> Judged
    requires { (i < 4) × (j.evaluations ≤ 18) × (j.incomplete ≤ 3) × (cost_of o ≤ 6) }
    ensures { result ≡ judged_by j i rank v o }
{
    let mut at = j.at;
    at[i] = o;
    Judged {
        at,
        incomplete: j.incomplete + is_incomplete(o) as usize,
        evaluations: j.evaluations + cost_of(o),
        marked: j.marked | is_marking(o),
        legal: j.legal & is_legal_verdict(rank, v),
    }
}

// Whether a child's pixels are marked True.
pub fn is_marking(o: Outcome) -> bool
    ensures { result ≡ is_marking o }
{
    matches!(o, Outcome::Area | Outcome::Point(_))
}

// Whether a child is to be queued, or finds no direction.
pub fn is_incomplete(o: Outcome) -> bool
    ensures { result ≡ is_incomplete o }
{
    matches!(o, Outcome::Incomplete(_))
}
