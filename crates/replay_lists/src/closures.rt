// Playing the entries of a list by two closures of a caller's: one reads the next entry, one plays it. `list::play_entries` is for entries that are a type.
ghost use Rattle.std.specs.Prelude.{◌≡◌, ◌<◌, ⊤, IfOk, MatchOption};
ghost use Rattle.std.specs.Fn.{FnOnceReturnsAtMut};
ghost use Rattle.replay_lists.specs.Playing.{Played};

use crate::playing::{Inside, Playing};
use std::marker::{Model, PhantomData};

/// What reads entries and plays them: two closures.
pub trait Plays: Playing {}

impl<B: Playing> Plays for B {}

/// Two closures: `next` reads the next entry, if there is one, and `play` plays it.
#[derive(Drop)]
pub struct Closures<R, N, P> {
    pub next: N,
    pub play: P,
    pub reads: PhantomData<R>,
}

impl<R, E, X, N: Fn(&mut R) -> Result<Option<E>, X>, P: FnMut(E) -> Result<(), X>> Playing
    for Closures<R, N, P> {
    type Reader = R;

    type Entry = E;

    type Failure = X;

    ghost may = { λ b. N.IsAlwaysCallable b.next × P.IsAlwaysCallable b.play };

    ghost gives = { λ b r o s. FnOnceReturnsAtMut N.FnOnce b.next r o s };

    ghost plays = { λ b e o c. P.step b.play e o c.play × (c.next ≡ b.next) };

    fn next(&self, from: &mut R, _: Inside) -> Result<Option<E>, X> {
        (self.next)(from)
    }

    fn play(&mut self, entry: E, _: Inside) -> Result<(), X> {
        (self.play)(entry)
    }
}

/// Closures that may be called, whatever they get: a type, so that `play_by` requires nothing.
pub struct Callable<B: Plays> {
    pub by: B,
}

impl<B: Plays> Model for Callable<B> {
    ghost Value = { B };

    ghost view = { λ s. s.by };

    ghost invariant = { λ s. B.may s.by };
}

/// Plays the entries of a list, but no more than so many. Answers how many there were; none where so many were played, and more may stand behind them.
/// A caller makes its `Callable` in a function over `B: Plays`, as the tests do. `few`, which `played` says too, is for callers who want no more.
pub fn play_by<B: Plays>(
    from: &mut B::Reader,
    most: u64,
    closures: Callable<B>,
) -> Result<Option<u64>, B::Failure>
    ensures few { IfOk result (λ played. MatchOption played ⊤ (λ n. n < most)) }
    ensures played { Played B.gives B.plays most from.old closures from.new result }
{
    let Callable { mut by } = closures;
    for played in 0..most {
        let Some(entry) = by.next(from, Inside(()))? else {
            return Ok(Some(played));
        };
        by.play(entry, Inside(()))?;
    }
    Ok(None)
}

#[cfg(test)]
mod tests {
    use super::*;
    use std::test::Fail;

    // As a caller would.
    fn play_closures<B: Plays>(
        from: &mut B::Reader,
        most: u64,
        by: B,
    ) -> Result<Option<u64>, B::Failure>
        requires { B.may by }
        ensures { Played B.gives B.plays most from.old by from.new result }
    {
        play_by(from, most, Callable { by })
    }

    // What is left of a list of digits is one number; its next entry is the last digit.
    fn next_digit(left: &mut u32) -> Result<Option<u32>, u32> {
        if *left == 0 {
            return Ok(None);
        }
        let digit = *left % 10;
        *left /= 10;
        if digit == 9 { Err(9) } else { Ok(Some(digit)) }
    }

    // Plays digits, each of which is written behind those before, and a 7 not at all. What was answered, what was written, and what is left of the list.
    fn played_digits(list: u32, most: u64) -> (Result<Option<u64>, u32>, u32, u32) {
        let mut left = list;
        let mut written = 0u32;
        let closures = Closures {
            next: next_digit,
            play: |digit: u32| -> Result<(), u32> {
                if digit == 7 {
                    return Err(7);
                }
                written = written.wrapping_mul(10).wrapping_add(digit);
                Ok(())
            },
            reads: PhantomData,
        };
        let answer = play_closures(&mut left, most, closures);
        (answer, written, left)
    }

    #[test]
    fn plays_by_two_closures(rt: HostRuntime) {
        assert_eq!(rt; played_digits(54321, 9), (Ok(Some(5)), 12345, 0));
        assert_eq!(rt; played_digits(54321, 6), (Ok(Some(5)), 12345, 0));
        assert_eq!(rt; played_digits(54321, 5), (Ok(None), 12345, 0));
        assert_eq!(rt; played_digits(54321, 3), (Ok(None), 123, 54));
        assert_eq!(rt; played_digits(54321, 0), (Ok(None), 0, 54321));
        assert_eq!(rt; played_digits(0, 0), (Ok(None), 0, 0));
        assert_eq!(rt; played_digits(0, 4), (Ok(Some(0)), 0, 0));
    }

    #[test]
    fn stops_where_a_closure_fails(rt: HostRuntime) {
        assert_eq!(rt; played_digits(54921, 9), (Err(9), 12, 54));
        assert_eq!(rt; played_digits(54721, 9), (Err(7), 12, 54));
        assert_eq!(rt; played_digits(54921, 2), (Ok(None), 12, 549));
    }
}
