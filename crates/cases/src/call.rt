// The calls of the records, each by its letter.
use std::fmt;

#[derive(Clone, Copy, PartialEq, Eq)]
pub enum Call {
    Read,
    Rewrite,
    Bytes, // of the written file
    Pool,
    PlanPooled,
    Plan,
    Replan,
    Join,
    Halves,
    List,
    TrueDay,
    Check,
    CheckFor,
    Price,
    Earliest,
}

// A letter that no call has.
#[derive(Clone, Copy)]
pub struct NoCall;

impl TryFrom<u8> for Call {
    type Error = NoCall;

    fn try_from(letter: u8) -> Result<Call, NoCall> {
        match letter {
            b'r' => Ok(Call::Read),
            b'w' => Ok(Call::Rewrite),
            b'b' => Ok(Call::Bytes),
            b'i' => Ok(Call::Pool),
            b'd' => Ok(Call::PlanPooled),
            b'p' => Ok(Call::Plan),
            b'm' => Ok(Call::Replan),
            b'j' => Ok(Call::Join),
            b'a' => Ok(Call::Halves),
            b'l' => Ok(Call::List),
            b't' => Ok(Call::TrueDay),
            b'c' => Ok(Call::Check),
            b'g' => Ok(Call::CheckFor),
            b'q' => Ok(Call::Price),
            b'e' => Ok(Call::Earliest),
            _ => Err(NoCall),
        }
    }
}

impl fmt::Display for NoCall {
    fn fmt<W: fmt::Write>(&self, f: &mut fmt::Formatter<W>) -> fmt::Result {
        f.write_str("no such call")
    }
}
