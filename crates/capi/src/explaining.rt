// The explainer's entry: document 02, (v). Its answer crosses as one record.
ghost use Rattle.std.specs.Prelude.{◌≡◌};
ghost use Rattle.implicit.specs.Setup.{cleared};
ghost use Rattle.explain.specs.Explained.{explained, ring_explained, cells_explained};
ghost use Rattle.capi.specs.Explaining.{told_at, told_of, nothing_told, record_of, explained_record};

use crate::engine_records::{blank_state, ending_number, refusal_number};
use crate::records::Explained;
use decide::Chosen;
use explain::{Explanation, Moment, Reason};
use implicit::{Ranges, State};
use queue::Block;
use refusal::Refusal;

// What crosses of a reason.
#[derive(Clone, Copy)]
pub(crate) struct Told {
    pub reason: u64,
    pub step: u64,
    pub child: u64,
    pub point: u64,
    pub number: u64,
    pub before: u64,
    pub block: Block,
}

// Why a pixel reads what it reads, after so many steps of a setup on its tape.
#[unsafe(no_mangle)]
pub extern "C" fn smyrilox_explain(
    chosen: Chosen,
    ranges: Ranges,
    ring: &mut [u8],
    cells: &mut [u64],
    tape: &[u8],
    steps: u32,
    column: u32,
    row: u32,
) -> Explained
    ensures value { result ≡ explained_record (explained (cleared chosen) ranges ring.old cells.old tape.now
        steps column row) }
    ensures ring_after { ring.new ≡ ring_explained (cleared chosen) ranges ring.old cells.old tape.now
        steps column row }
    ensures cells_after { cells.new ≡ cells_explained (cleared chosen) ranges ring.old cells.old tape.now
        steps column row }
{
    explain::explain(chosen, ranges, ring, cells, tape, steps, column, row).into()
}

impl From<Result<Explanation, Refusal>> for Explained {
    ghost from_gives = { λ a r. r ≡ explained_record a };

    fn from(a: Result<Explanation, Refusal>) -> Explained {
        match a {
            Ok(
                Explanation::Of {
                    reason,
                    state,
                    steps,
                    evaluations,
                    tape,
                    ending,
                },
            ) => {
                let end = ending_number(ending);
                record_of(0, Told::from(reason), end, steps, evaluations, tape, state)
            }
            Ok(
                Explanation::Stopped {
                    why,
                    state,
                    steps,
                    evaluations,
                    tape,
                },
            ) => {
                let refusal = refusal_number(why);
                record_of(refusal, nothing_told(), 4, steps, evaluations, tape, state)
            }
            Err(why) => record_of(
                refusal_number(why),
                nothing_told(),
                0,
                0,
                0,
                0,
                blank_state(),
            ),
        }
    }
}

// All of them in their places.
fn record_of(
    refusal: u64,
    told: Told,
    ending: u64,
    steps: u64,
    evaluations: u64,
    tape: usize,
    state: State,
) -> Explained
    ensures { result ≡ record_of refusal told ending steps evaluations tape state }
{
    Explained {
        refusal,
        reason: told.reason,
        step: told.step,
        child: told.child,
        point: told.point,
        number: told.number,
        before: told.before,
        block: told.block.into(),
        direction: told.block.dir as u64,
        ending,
        steps,
        evaluations,
        tape,
        state,
    }
}

impl From<Reason> for Told {
    ghost from_gives = { λ reason told. told ≡ told_of reason };

    fn from(reason: Reason) -> Told {
        match reason {
            Reason::True { at, point } => told_at(1, at, point),
            Reason::False { at } => told_at(2, at, 0),
            Reason::GivenUp { at } => told_at(3, at, 0),
            Reason::Waiting {
                number,
                before,
                block,
            } => Told {
                reason: 4,
                number,
                before,
                block,
                ..nothing_told()
            },
        }
    }
}

// A reason that is a moment of the run.
fn told_at(reason: u64, at: Moment, point: u8) -> Told
    ensures { result ≡ told_at reason at point }
{
    Told {
        reason,
        step: at.step,
        child: at.child as u64,
        point: point as u64,
        ..nothing_told()
    }
}

fn nothing_told() -> Told
    ensures { result ≡ nothing_told }
{
    Told {
        reason: 0,
        step: 0,
        child: 0,
        point: 0,
        number: 0,
        before: 0,
        block: explain::blank_block(),
    }
}
