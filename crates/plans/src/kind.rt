// The kinds of records.
ghost use Rattle.plans.specs.Kinds.{Coded};

use limits::Refusal;

#[derive(Clone, Copy)]
pub enum Kind {
    Head = 0,
    Server = 1,
    Action = 2,
}

// A number that is no kind is a fault of the record's form.
impl TryFrom<u8> for Kind {
    type Error = Refusal;

    ghost try_from_gives = { Coded };

    fn try_from(code: u8) -> Result<Kind, Refusal> {
        match code {
            0 => Ok(Kind::Head),
            1 => Ok(Kind::Server),
            2 => Ok(Kind::Action),
            _ => Err(Refusal::RecordForm),
        }
    }
}
