ghost use Rattle.std.specs.Prelude.{◌≡◌, true, ◌<◌};
ghost use Rattle.answer.specs.Result.{passes};
ghost use Rattle.formula.specs.Kind.{kind_number};
ghost use Rattle.formula.specs.Rule.{node_count, kind_at, left_at, right_at};
ghost use Rattle.normalform.specs.Written.{written_check};

use answer::Refusal;
use formula::{Kind, check_syntax, kind_of, left_of, right_of};

// A written rule that 1 to 6 do not refuse.
#[derive(Clone, Copy)]
pub struct Written<'a> {
    pub bytes: &'a [u8],
    pub ghost accepted: { passes (written_check bytes.now) ≡ true },
}

impl<'a> Written<'a> {
    ghost use Rattle.std.specs.Prelude.{IfOk};
    ghost use Rattle.normalform.specs.Parsed.{parsed};

    // The written rule that any bytes are, unless 1 to 6 refuse them.
    #[tactic(auto, unfolding(crate::specs::Written::written_check))]
    pub fn parse(bytes: &'a [u8]) -> Result<Written<'a>, Refusal>
        ensures bytes { IfOk result (λ rule. rule.bytes.now ≡ bytes.now) }
        ensures checked { parsed result ≡ written_check bytes.now }
    {
        check_syntax(Kind::Eventually as u8, bytes)?;
        Ok(Written { bytes })
    }

    // How many nodes it has.
    pub fn count(&self) -> usize
        ensures { result ≡ node_count self.now.bytes.now }
    {
        self.bytes.len() / 3
    }

    #[tactic(auto, using(crate::proofs::Fitting::passed_kind))]
    pub fn kind(&self, n: usize) -> Kind
        requires { n < node_count self.now.bytes.now }
        ensures { kind_number result ≡ kind_at self.now.bytes.now n }
    {
        Kind::try_from(kind_of(self.bytes, n)).unwrap()
    }

    pub fn left(&self, n: usize) -> usize
        requires { n < node_count self.now.bytes.now }
        ensures { result ≡ left_at self.now.bytes.now n }
    {
        left_of(self.bytes, n)
    }

    pub fn right(&self, n: usize) -> usize
        requires { n < node_count self.now.bytes.now }
        ensures { result ≡ right_at self.now.bytes.now n }
    {
        right_of(self.bytes, n)
    }
}
