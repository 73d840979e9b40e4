// The engine's calls, each made with what the tables hold and answered into the copies.
//
// Word 36 has the ring's length, 37 the number of cells, 38 the verdict or tape bytes, 39 the budget or the number of steps, 40 the length of the picture's
// buffer, 106 the other ring's length, 107 how many tile counts. Cells begin at word 128, tile counts at 1536; verdicts at byte 3072, the picture at 3584; the
// other ring of a move at 3072.
ghost use Rattle.replay_histories.specs.Words.{EndsInTables};

use crate::answers::{
    put_answer, put_answer_or_state, put_done, put_ended, put_finished, put_listed, put_needed,
    put_tally,
};
use crate::explaining::play_explain;
use crate::record::{Ends, STEPS, chosen_at, ends_at, put_state, ranges_at, state_at};
use crate::tables::{BYTES, CELLS, PICTURE, Tables, VERDICTS, Words};
use crate::with_table::with_counts;
use decide::Chosen;
use implicit::{
    Ended, Finished, Ranges, Refused, State, children, enough_ring, fill_table, least_ring,
    move_queue, run, run_with_table, setup, setup_with_table, step, step_with_table,
};
use refusal::Refusal;
use replay_lists::words::lower_half;

// The calls that the list names.
#[derive(Clone, Copy)]
enum Call {
    Setup,
    Children,
    Step,
    Run,
    Picture,
    Counts,
    LeastRing,
    EnoughRing,
    MoveQueue,
    SetupWithTable,
    StepWithTable,
    RunWithTable,
    FillTable,
    Explain,
}

// A number that is no call's.
#[derive(Clone, Copy)]
struct UnknownCall;

impl TryFrom<u8> for Call {
    type Error = UnknownCall;

    fn try_from(number: u8) -> Result<Call, UnknownCall> {
        match number {
            1 => Ok(Call::Setup),
            2 => Ok(Call::Children),
            3 => Ok(Call::Step),
            4 => Ok(Call::Run),
            5 => Ok(Call::Picture),
            6 => Ok(Call::Counts),
            7 => Ok(Call::LeastRing),
            8 => Ok(Call::EnoughRing),
            9 => Ok(Call::MoveQueue),
            10 => Ok(Call::SetupWithTable),
            11 => Ok(Call::StepWithTable),
            12 => Ok(Call::RunWithTable),
            13 => Ok(Call::FillTable),
            14 => Ok(Call::Explain),
            _ => Err(UnknownCall),
        }
    }
}

// Makes a call that is lent the ring and the cells.
pub(crate) fn lent<A, F: FnOnce(&mut [u8], &mut [u64]) -> A>(
    given: &Tables,
    left: &mut Tables,
    call: F,
) -> A
    requires { F.IsAlwaysCallable call }
{
    lent_parts(
        ends_at(&given.words),
        &mut left.bytes,
        &mut left.words,
        call,
    )
}

// The parts are cut here, out of arrays: no proof is found where two fields behind one `&mut` are lent and cut at once.
fn lent_parts<A, F: FnOnce(&mut [u8], &mut [u64]) -> A>(
    ends: Ends,
    bytes: &mut [u8; BYTES],
    words: &mut Words,
    call: F,
) -> A
    requires ends { EndsInTables ends }
    requires call_called { F.IsAlwaysCallable call }
{
    call(&mut bytes[..ends.ring], &mut words[CELLS..ends.cells])
}

// A setup, with a table or without.
fn play_setup<F: FnOnce(Chosen, Ranges, &mut [u8], &mut [u64]) -> Result<State, Refusal>>(
    given: &Tables,
    left: &mut Tables,
    setup: F,
)
    requires { F.IsAlwaysCallable setup }
{
    let chosen = chosen_at(&given.words);
    let ranges = ranges_at(&given.words);
    let answer = lent(given, left, |ring, cells| {
        setup(chosen, ranges, ring, cells)
    });
    put_answer(left, answer, put_state);
}

fn play_children(given: &Tables, left: &mut Tables) {
    let ends = ends_at(&given.words);
    let answer = children(state_at(&given.words), &given.bytes[..ends.ring]);
    put_listed(left, answer);
}

// The verdicts of a step, or the tape of a run.
pub(crate) fn verdicts_of(given: &Tables) -> &[u8] {
    let end = ends_at(&given.words).verdicts;
    &given.bytes[VERDICTS..end]
}

// A step, and a run, with a table or without.
fn play_step<F: FnOnce(State, &mut [u8], &mut [u64], &[u8]) -> Result<Finished, Refused>>(
    given: &Tables,
    left: &mut Tables,
    step: F,
)
    requires { F.IsAlwaysCallable step }
{
    let state = state_at(&given.words);
    let verdicts = verdicts_of(given);
    let answer = lent(given, left, |ring, cells| {
        step(state, ring, cells, verdicts)
    });
    put_answer_or_state(left, answer, put_finished);
}

fn play_run<F: FnOnce(State, &mut [u8], &mut [u64], &[u8], u32) -> Result<Ended, Refused>>(
    given: &Tables,
    left: &mut Tables,
    run: F,
)
    requires { F.IsAlwaysCallable run }
{
    let state = state_at(&given.words);
    let tape = verdicts_of(given);
    let budget = lower_half(given.words[STEPS]);
    let answer = lent(given, left, |ring, cells| {
        run(state, ring, cells, tape, budget)
    });
    put_answer_or_state(left, answer, put_ended);
}

fn play_picture(given: &Tables, left: &mut Tables) {
    let ends = ends_at(&given.words);
    let answer = implicit::picture(
        state_at(&given.words),
        &given.words[CELLS..ends.cells],
        &mut left.bytes[PICTURE..ends.picture],
    );
    put_done(left, answer);
}

fn play_counts(given: &Tables, left: &mut Tables) {
    let ends = ends_at(&given.words);
    let answer = implicit::counts(state_at(&given.words), &given.words[CELLS..ends.cells]);
    put_answer(left, answer, put_tally);
}

fn play_least_ring(given: &Tables, left: &mut Tables) {
    let answer = least_ring(chosen_at(&given.words), ranges_at(&given.words));
    put_answer(left, answer, put_needed);
}

fn play_enough_ring(given: &Tables, left: &mut Tables) {
    let steps = lower_half(given.words[STEPS]);
    let answer = enough_ring(chosen_at(&given.words), ranges_at(&given.words), steps);
    put_answer(left, answer, put_needed);
}

fn play_move(given: &Tables, left: &mut Tables) {
    let ends = ends_at(&given.words);
    let answer = move_queue(
        state_at(&given.words),
        &given.bytes[..ends.ring],
        &mut left.bytes[VERDICTS..ends.other],
    );
    put_answer_or_state(left, answer, put_state);
}

fn play_fill(given: &Tables, left: &mut Tables, table: &mut [u32]) {
    let ends = ends_at(&given.words);
    let answer = fill_table(
        state_at(&given.words),
        &given.words[CELLS..ends.cells],
        table,
    );
    put_done(left, answer);
}

fn play_call(call: Call, given: &Tables, left: &mut Tables) {
    match call {
        Call::Setup => play_setup(given, left, |chosen, ranges, ring, cells| {
            setup(chosen, ranges, ring, cells)
        }),
        Call::Children => play_children(given, left),
        Call::Step => play_step(given, left, |s, ring, cells, verdicts| {
            step(s, ring, cells, verdicts)
        }),
        Call::Run => play_run(given, left, |s, ring, cells, tape, budget| {
            run(s, ring, cells, tape, budget)
        }),
        Call::Picture => play_picture(given, left),
        Call::Counts => play_counts(given, left),
        Call::LeastRing => play_least_ring(given, left),
        Call::EnoughRing => play_enough_ring(given, left),
        Call::MoveQueue => play_move(given, left),
        Call::Explain => play_explain(given, left),
        Call::SetupWithTable => with_counts(given, left, |left, table| {
            play_setup(given, left, |chosen, ranges, ring, cells| {
                setup_with_table(chosen, ranges, ring, cells, table)
            })
        }),
        Call::StepWithTable => with_counts(given, left, |left, table| {
            play_step(given, left, |s, ring, cells, verdicts| {
                step_with_table(s, ring, cells, table, verdicts)
            })
        }),
        Call::RunWithTable => with_counts(given, left, |left, table| {
            play_run(given, left, |s, ring, cells, tape, budget| {
                run_with_table(s, ring, cells, table, tape, budget)
            })
        }),
        Call::FillTable => with_counts(given, left, |left, table| play_fill(given, left, table)),
    }
}

// The call of a number. One that is no call's is answered by 99, and the tile counts are cut to 32 bits, as by a call with a table.
pub(crate) fn play(number: u8, given: &Tables, left: &mut Tables) {
    match Call::try_from(number) {
        Ok(call) => play_call(call, given, left),
        Err(UnknownCall) => with_counts(given, left, |left, _table| left.put(41, 99)),
    }
}
