ghost use Rattle.std.specs.Prelude.{◌≡◌, ◌++◌, OnOk, OnErr};
ghost use Rattle.aw_cell.specs.CellText.{cell_text};
ghost use Rattle.ses_report.specs.Reports.{line_under};
ghost use Rattle.ses_step.specs.Answers.{answer_line, is_refusal};

use aw_cell::{Cell, Text};
use ses_report::{Refusal, append_error, append_output};
use std::alloc::{AllocError, Global};

/// What a line of a session is answered.
#[derive(Clone, Copy, Debug, PartialEq, Eq)]
pub enum Answer {
    /// The line was accepted and shows nothing.
    Done,
    /// The line was accepted and shows this cell.
    Shown(Cell),
    /// The line was refused.
    Refused(Refusal),
}

impl Answer {
    /// Whether the line was refused.
    pub fn is_refusal(&self) -> bool
        ensures { result ≡ is_refusal self.now }
    {
        matches!(self, Answer::Refused(_))
    }
}

fn append_cell(
    alloc: Global,
    out: &mut Vec<u8>,
    prefix: &Text,
    cell: &Cell,
) -> Result<(), AllocError>
    ensures ok { OnOk result (out.new.items ≡ out.old.items ++ line_under prefix.now (cell_text cell.now)) }
    ensures err { OnErr result (out.new.items ≡ out.old.items) }
{
    let mut text = [0; 64];
    let len = cell.write(&mut text);
    append_output(alloc, out, prefix, &text[..len])
}

/// Appends the line of an answer: the prefix, which is a session's name or `*`, the answer's text
/// and a LF (docs/LANGUAGE.md, "Texts of cells" and "Refusals"). The only error is want of memory;
/// then nothing was appended.
#[tactic(auto, using(crate::proofs::AnswerLines::one_line))]
pub fn append_line(
    alloc: Global,
    out: &mut Vec<u8>,
    prefix: &Text,
    answer: &Answer,
) -> Result<(), AllocError>
    ensures ok { OnOk result (out.new.items ≡ out.old.items ++ answer_line prefix.now answer.now) }
    ensures err { OnErr result (out.new.items ≡ out.old.items) }
{
    match answer {
        Answer::Done => append_output(alloc, out, prefix, b"ok"),
        Answer::Shown(cell) => append_cell(alloc, out, prefix, cell),
        Answer::Refused(refusal) => append_error(alloc, out, prefix, refusal),
    }
}
