// How a list is read and played by what a caller hands over. Only `play_by` knows that the two calls may be made, so no other crate can make them.
ghost use Rattle.std.specs.Prelude.{Result, Option};

// What no other crate can make.
#[derive(Clone, Copy)]
pub struct Inside(pub(crate) ());

pub trait Playing: Drop {
    type Reader;

    type Entry;

    type Failure;

    // The two calls may be made, whatever they get, and may be made again.
    ghost may: { Self → Type 0 };

    // What reading an entry may answer, and leave of the reader.
    ghost gives: { Self → Self.Reader → Result (Option Self.Entry) Self.Failure → Self.Reader → Type 0 };

    // What playing one may answer, and leave.
    ghost plays: { Self → Self.Entry → Result (Unit {0}) Self.Failure → Self → Type 0 };

    fn next(
        &self,
        from: &mut Self::Reader,
        inside: Inside,
    ) -> Result<Option<Self::Entry>, Self::Failure>
        requires { may self.now }
        ensures { gives self.now from.old result from.new };

    fn play(&mut self, entry: Self::Entry, inside: Inside) -> Result<(), Self::Failure>
        requires { may self.old }
        ensures again { may self.new }
        ensures played { plays self.old entry result self.new };
}
