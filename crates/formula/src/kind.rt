// The kinds of a rule's nodes, and the bytes that they are read from.
ghost use Rattle.formula.specs.Kind.{Decodes};

// A kind of node; the number of each is its byte. Those behind release are of the second edition (R-3).
#[derive(Clone, Copy, Debug, PartialEq, Eq, PartialOrd, Ord)]
pub enum Kind {
    False,
    True,
    Proposition,
    NegatedProposition,
    And,
    Or,
    Next,
    Until,
    Release,
    Not,
    Implies,
    Always,
    Eventually,
}

// A byte that is no kind of node.
#[derive(Clone, Copy, Debug, PartialEq, Eq)]
pub struct UnknownKind(pub u8);

impl TryFrom<u8> for Kind {
    type Error = UnknownKind;

    ghost try_from_gives = { Decodes };

    fn try_from(byte: u8) -> Result<Kind, UnknownKind> {
        match byte {
            0 => Ok(Kind::False),
            1 => Ok(Kind::True),
            2 => Ok(Kind::Proposition),
            3 => Ok(Kind::NegatedProposition),
            4 => Ok(Kind::And),
            5 => Ok(Kind::Or),
            6 => Ok(Kind::Next),
            7 => Ok(Kind::Until),
            8 => Ok(Kind::Release),
            9 => Ok(Kind::Not),
            10 => Ok(Kind::Implies),
            11 => Ok(Kind::Always),
            12 => Ok(Kind::Eventually),
            _ => Err(UnknownKind(byte)),
        }
    }
}
