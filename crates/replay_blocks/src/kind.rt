// What a record is for.
ghost use Rattle.std.specs.Prelude.{◌≡◌, MatchResult, Some, None};
ghost use Rattle.replay_blocks.specs.Kind.{kind_of};

// A record starts a ring, appends a block, takes the front one, compares the ring's bytes, or sets what is remembered.
#[derive(Clone, Copy)]
pub(crate) enum Kind {
    Start,
    Append,
    Take,
    Compare,
    Recall,
}

// A number that is no kind's.
#[derive(Clone, Copy)]
pub(crate) struct UnknownKind;

impl TryFrom<u8> for Kind {
    type Error = UnknownKind;

    ghost try_from_gives = { λ code r. MatchResult r (λ kind. kind_of code ≡ Some kind) (λ _. kind_of code ≡ None) };

    fn try_from(code: u8) -> Result<Kind, UnknownKind> {
        match code {
            0 => Ok(Kind::Start),
            1 => Ok(Kind::Append),
            2 => Ok(Kind::Take),
            3 => Ok(Kind::Compare),
            4 => Ok(Kind::Recall),
            _ => Err(UnknownKind),
        }
    }
}
