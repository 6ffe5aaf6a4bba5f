ghost use Rattle.std.specs.Prelude.{◌≡◌, true, ◌<◌, ◌≤◌};
ghost use Rattle.answer.specs.Result.{passes, fine};
ghost use Rattle.formula.specs.Rule.{node_count, kind_at, left_at, right_at, release_kind, checked};
ghost use Rattle.formula.specs.Kind.{kind_number};

use crate::{Kind, check, kind_of, left_of, right_of};
use answer::Refusal;

// A first-edition rule that 1 to 7 do not refuse.
#[derive(Clone, Copy)]
pub struct Rule<'a> {
    pub bytes: &'a [u8],
    pub ghost accepted: { passes (checked bytes.now) ≡ true },
}

impl<'a> Rule<'a> {
    ghost use Rattle.std.specs.Prelude.{IfOk};
    ghost use Rattle.formula.specs.Parsed.{parsed};

    // The rule that any bytes are, unless 1 to 7 refuse them.
    pub fn parse(bytes: &'a [u8]) -> Result<Rule<'a>, Refusal>
        ensures bytes { IfOk result (λ rule. rule.bytes.now ≡ bytes.now) }
        ensures checked { parsed result ≡ checked bytes.now }
    {
        check(bytes)?;
        Ok(Rule { bytes })
    }

    // The same of bytes that are known to pass.
    pub fn new(bytes: &'a [u8]) -> Rule<'a>
        requires { checked bytes.now ≡ fine }
        ensures { result.bytes.now ≡ bytes.now }
    {
        Rule { bytes }
    }

    // How many nodes it has.
    pub fn count(&self) -> usize
        ensures { result ≡ node_count self.now.bytes.now }
    {
        self.bytes.len() / 3
    }

    #[tactic(auto, using(crate::proofs::Accepted::passed_kind))]
    pub fn kind(&self, n: usize) -> Kind
        requires { n < node_count self.now.bytes.now }
        ensures number { kind_number result ≡ kind_at self.now.bytes.now n }
        ensures at_most { kind_number result ≤ release_kind }
    {
        Kind::try_from(kind_of(self.bytes, n)).unwrap()
    }

    pub fn left(&self, n: usize) -> usize
        requires { n < node_count self.now.bytes.now }
        ensures { result ≡ left_at self.now.bytes.now n }
    {
        left_of(self.bytes, n)
    }

    pub fn right(&self, n: usize) -> usize
        requires { n < node_count self.now.bytes.now }
        ensures { result ≡ right_at self.now.bytes.now n }
    {
        right_of(self.bytes, n)
    }
}
