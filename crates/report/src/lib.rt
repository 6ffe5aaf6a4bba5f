// What is sent of a verdict: 32 bytes that tell the number of a rule and the verdict, and nothing else.
#![tactic(auto)]

ghost use Rattle.std.specs.Prelude.{◌≡◌};
ghost use Rattle.answer.specs.Result.{answer};
ghost use Rattle.judge.specs.Judge.{verdict_of};
ghost use Rattle.report.specs.Report.{verdict_byte, composed, reporting, reported};

use answer::{Refusal, put_number};
use judge::{Finding, Verdict, judge};
use lasso::Lasso;

// How many bytes a report has (`report_bytes` of specs/).
pub const REPORT_BYTES: usize = 32;

// The byte of a verdict: 1 for kept, 0 for broken, 2 for a refusal.
#[tactic(auto, unfolding(crate::specs::Report::verdict_byte))]
fn verdict_byte(judged: Result<Finding, Refusal>) -> u8
    ensures { result ≡ verdict_byte (verdict_of (answer judged)) }
{
    match judged.map(|finding| finding.verdict) {
        Ok(Verdict::Kept) => 1,
        Ok(Verdict::Broken) => 0,
        Err(_) => 2,
    }
}

// The number of a rule, low byte first, the byte of a verdict, and zeros.
#[tactic(auto, unfolding(crate::specs::Report::composed, answer::specs::Bytes::two_bytes))]
fn compose(number: u16, verdict: u8) -> [u8; REPORT_BYTES]
    ensures { result ≡ composed number verdict }
{
    let mut bytes = [0u8; REPORT_BYTES];
    put_number(&mut bytes, 0, usize::from(number));
    bytes[2] = verdict;
    bytes
}

// The report of judging a lasso by an image, for the rule of that number. A refusal of judging is reported too, so that
// nothing is refused here.
#[tactic(auto, unfolding(crate::specs::Report::reported))]
pub fn report(number: u16, image: &[u8], lasso: &Lasso<'_>, work: &mut [u8]) -> [u8; REPORT_BYTES]
    ensures { reporting result work.new
        ≡ reported number image.now lasso.now.stem.now lasso.now.cycle.now work.old }
{
    let judged = judge(image, lasso, work);
    compose(number, verdict_byte(judged))
}
