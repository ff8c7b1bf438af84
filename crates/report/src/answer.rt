// The answer of a call, as a line of a report.
ghost use Rattle.report.specs.Output.{Appends};
ghost use Rattle.report.specs.Report.{answer_line};

use crate::append::append;
use model::Fault;
use std::alloc::AllocError;

// `answer NUMBER STATION WORD`, with three zeros for an acceptance.
#[tactic(auto, using(std::proofs::lemmas::Fmt::decimal_digit))]
pub fn write_answer(out: &mut Vec<u8>, answer: &Result<(), Fault>) -> Result<(), AllocError>
    ensures { Appends result out.old.items (answer_line answer.now) out.new.items }
{
    match answer {
        Ok(()) => append(out, "answer 0 0 0\n"),
        Err(fault) => append(out, format_args!("answer {fault}\n")),
    }
}
