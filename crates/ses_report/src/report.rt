ghost use Rattle.std.specs.Prelude.{◌≡◌, ◌++◌, ◌∷◌, [], IfOk, OnOk, OnErr};
ghost use Rattle.std.specs.Fmt.{decimal};
ghost use Rattle.aw_cell.specs.CellText.{cell_text};
ghost use Rattle.ses_report.specs.Reports as spec;

use crate::refusal::{Detail, Refusal};
use aw_cell::{Cell, Text};
use aw_lists::List;
use std::alloc::{AllocError, Global};

// Each private function below appends a part of a line to the line's front, which is dropped after
// want of memory.

fn append(out: &mut Vec<u8>, bytes: &[u8]) -> Result<(), AllocError>
    ensures { OnOk result (out.new.items ≡ out.old.items ++ bytes.now) }
{
    out.extend_from_slice(bytes)
}

/// Appends a blank and a text.
fn append_part(out: &mut Vec<u8>, part: &[u8]) -> Result<(), AllocError>
    ensures { OnOk result (out.new.items ≡ out.old.items ++ 32 ∷ part.now) }
{
    append(out, b" ")?;
    append(out, part)
}

/// Appends a blank and a number.
fn append_count(alloc: Global, out: &mut Vec<u8>, count: u64) -> Result<(), AllocError>
    ensures { OnOk result (out.new.items ≡ out.old.items ++ 32 ∷ decimal count) }
{
    let digits = count.to_string(alloc)?;
    append_part(out, digits.as_bytes())
}

fn append_place(alloc: Global, out: &mut Vec<u8>, line: u32) -> Result<(), AllocError>
    ensures { OnOk result (out.new.items ≡ out.old.items ++ spec.place_text line) }
{
    if line == 0 {
        Ok(())
    } else {
        append_count(alloc, out, u64::from(line))
    }
}

fn append_detail(alloc: Global, out: &mut Vec<u8>, detail: &Detail) -> Result<(), AllocError>
    ensures { OnOk result (out.new.items ≡ out.old.items ++ spec.detail_text detail.now) }
{
    match detail {
        Detail::Nothing => Ok(()),
        Detail::Column(column) => append_count(alloc, out, u64::from(*column)),
        Detail::One(text) => append_part(out, text.bytes()),
        Detail::Two(first, second) => {
            append_part(out, first.bytes())?;
            append_part(out, second.bytes())
        }
        Detail::Count(text, number) => {
            append_part(out, text.bytes())?;
            append_count(alloc, out, *number)
        }
    }
}

fn append_refusal(alloc: Global, out: &mut Vec<u8>, refusal: &Refusal) -> Result<(), AllocError>
    ensures { OnOk result (out.new.items ≡ out.old.items ++ spec.refusal_text refusal.now) }
{
    append(out, b"ERROR")?;
    append_count(alloc, out, u64::from(refusal.number))?;
    append_place(alloc, out, refusal.line)?;
    append_detail(alloc, out, &refusal.detail)
}

/// A prefix with its colon and blank.
fn prefixed(alloc: Global, prefix: &Text) -> Result<Vec<u8>, AllocError>
    ensures { IfOk result (λ line. line.items ≡ spec.prefix_text prefix.now) }
{
    let mut line = Vec::new(alloc);
    append(&mut line, prefix.bytes())?;
    append(&mut line, b": ")?;
    Ok(line)
}

fn output_bytes(alloc: Global, prefix: &Text, text: &[u8]) -> Result<Vec<u8>, AllocError>
    ensures { IfOk result (λ line. line.items ≡ spec.line_under prefix.now text.now) }
{
    let mut line = prefixed(alloc, prefix)?;
    append(&mut line, text)?;
    append(&mut line, b"\n")?;
    Ok(line)
}

fn error_bytes(alloc: Global, mut line: Vec<u8>, refusal: &Refusal) -> Result<Vec<u8>, AllocError>
    ensures { IfOk result (λ bytes. bytes.items ≡ line.items ++ (spec.refusal_text refusal.now ++ 10 ∷ [])) }
{
    append_refusal(alloc, &mut line, refusal)?;
    append(&mut line, b"\n")?;
    Ok(line)
}

/// The text of a cell, as SHOW prints it: NA, numbers in digits, a TEXT as it is, YES and NO
/// (docs/LANGUAGE.md, "Texts of cells"). The only error is want of memory.
pub fn show(alloc: Global, cell: &Cell) -> Result<List<u8>, AllocError>
    ensures { IfOk result (λ text. text ≡ cell_text cell.now) }
{
    let mut text = [0; 64];
    let len = cell.write(&mut text);
    List::from_slice(alloc, &text[..len])
}

/// Appends one line of output: the prefix, a colon and a blank, the text and a LF (docs/LANGUAGE.md,
/// "Texts of cells"). The only error is want of memory; then nothing was appended.
pub fn append_output(
    alloc: Global,
    out: &mut Vec<u8>,
    prefix: &Text,
    text: &[u8],
) -> Result<(), AllocError>
    ensures ok { OnOk result (out.new.items ≡ out.old.items ++ spec.line_under prefix.now text.now) }
    ensures err { OnErr result (out.new.items ≡ out.old.items) }
{
    let line = output_bytes(alloc, prefix, text)?;
    out.extend_from_slice(&line)
}

/// Appends the line of a refusal under a prefix (docs/LANGUAGE.md, "Refusals"). The only error is
/// want of memory; then nothing was appended.
pub fn append_error(
    alloc: Global,
    out: &mut Vec<u8>,
    prefix: &Text,
    refusal: &Refusal,
) -> Result<(), AllocError>
    ensures ok { OnOk result (out.new.items ≡ out.old.items ++ spec.line_under prefix.now (spec.refusal_text refusal.now)) }
    ensures err { OnErr result (out.new.items ≡ out.old.items) }
{
    let front = prefixed(alloc, prefix)?;
    let line = error_bytes(alloc, front, refusal)?;
    out.extend_from_slice(&line)
}

/// The line `prefix: ERROR n detail` of a refusal, with its LF; with an empty prefix the colon and
/// its blank are left out too. The line of a block stands before the detail (docs/LANGUAGE.md,
/// "Refusals"). The only error is want of memory.
pub fn error_line(alloc: Global, prefix: &Text, refusal: &Refusal) -> Result<List<u8>, AllocError>
    ensures { IfOk result (λ line. line ≡ spec.error_line prefix.now refusal.now) }
{
    let front = if prefix.bytes().is_empty() {
        Vec::new(alloc)
    } else {
        prefixed(alloc, prefix)?
    };
    let line = error_bytes(alloc, front, refusal)?;
    Ok(List::from_vec(line))
}
