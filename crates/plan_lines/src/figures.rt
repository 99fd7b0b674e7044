//! What a node is, and its numbers, by its line.

ghost use Rattle.std.specs.Prelude.{IfSome, codes};
ghost use Rattle.std.specs.Fmt.{decimal};
ghost use Rattle.certificate_text.specs.HasText.{IsWritable};
ghost use Rattle.plan_lines.specs.work.Finding.{CutsFigures, FindsFigures};
ghost use Rattle.plan_lines.specs.work.Behind.{GivesBefore};

use crate::lines::cut;
use certificate_text::LineCursor;

/// The cost and the rows behind a parenthesis.
fn read_figures(text: &[u8]) -> Option<(u64, u64)>
    ensures has { IfSome result (λ n. IsWritable n.0 × IsWritable n.1) }
    ensures only { FindsFigures text.now result }
{
    let mut at = LineCursor::new(text);
    if !at.eat(b"cost=") {
        return None;
    }
    let cost = at.number()?;
    if !at.eat(b" rows=") {
        return None;
    }
    let rows = at.number()?;
    Some((cost, rows))
}

/// What stands before two spaces at the end of a text.
fn without_spaces(text: &[u8]) -> Option<&[u8]>
    ensures only { GivesBefore (codes "  ") text.now result }
{
    text.strip_suffix(b"  ")
}

/// What the line of a node says that it is, and its cost and rows.
pub fn read_line(line: &[u8]) -> Option<(&[u8], (u64, u64))>
    ensures has { IfSome result (λ p. IsWritable p.1.0 × IsWritable p.1.1) }
    ensures only { CutsFigures line.now result }
{
    let (before, behind) = cut(line, b'(')?;
    let title = without_spaces(before)?;
    let figures = read_figures(behind)?;
    Some((title, figures))
}
