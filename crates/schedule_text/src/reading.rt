ghost use Rattle.std.specs.Prelude.{◌≡◌, ℕ, map, IfOk, Ok};
ghost use Rattle.schedule_text.specs.Answers.{Tells};
ghost use Rattle.schedule_text.specs.Lines.{line_of, pr_line_of, cluster_line_of, of_pr, of_cluster, is_blank};
ghost use Rattle.schedule_text.specs.Words.{words_of};
ghost use Rattle.schedule_text.specs.Allowed.{IsAllowedLine, IsAllowedPrLine, IsAllowedClusterLine};
ghost use Rattle.schedule_text.specs.declared.header.Head.TheVariants.{Pr, Cluster};
ghost use Rattle.schedule_text.specs.declared.line.SoFar.{SoFar};

use crate::event_words::event;
use crate::header::Head;
use crate::kind::ReadError;
use crate::line::{ClusterLine, Line, PrLine, SoFar};
use crate::pr_reading::read_pr_line;
use cl_base::Header;
use std::alloc::{AllocError, Global};

/// Reads a line after the header, without its newline.
pub fn read_line(alloc: Global, head: &Head, so_far: SoFar, line: &[u8]) -> Result<Line, ReadError>
    ensures reading { Tells result (line_of head.now so_far line.now) }
    ensures allowed { IfOk result (IsAllowedLine head.now so_far) }
{
    match head {
        Head::Pr(_) => pr_line(line),
        Head::Cluster(header) => cluster_line(alloc, header, so_far, line),
    }
}

fn pr_line(line: &[u8]) -> Result<Line, ReadError>
    ensures reading { Tells result (of_pr (pr_line_of line.now)) }
    ensures allowed { (senders : ℕ) (s : SoFar) → IfOk result (IsAllowedLine (Pr senders) s) }
{
    match read_pr_line(line) {
        Ok(line) => Ok(of_pr(line)),
        Err(kind) => Err(ReadError::Refused(kind)),
    }
}

fn of_pr(line: PrLine) -> Line
    requires { IsAllowedPrLine line }
    ensures same { of_pr (Ok line) ≡ Ok result }
    ensures allowed { (senders : ℕ) (s : SoFar) → IsAllowedLine (Pr senders) s result }
{
    match line {
        PrLine::Blank => Line::Blank,
        PrLine::End => Line::End,
        PrLine::Power => Line::Power,
        PrLine::Command { sender, command } => Line::Command { sender, command },
    }
}

fn cluster_line(
    alloc: Global,
    header: &Header,
    so_far: SoFar,
    line: &[u8],
) -> Result<Line, ReadError>
    ensures reading { Tells result (of_cluster (cluster_line_of header.now so_far line.now)) }
    ensures allowed { IfOk result (IsAllowedLine (Cluster header.now) so_far) }
{
    match read_cluster_line(alloc, header, so_far, line) {
        Ok(ClusterLine::Blank) => Ok(Line::Blank),
        Ok(ClusterLine::End) => Ok(Line::End),
        Ok(ClusterLine::Event(event)) => Ok(Line::Event(event)),
        Err(error) => Err(error),
    }
}

/// Reads a line after the header of a cluster schedule, without its newline.
pub fn read_cluster_line(
    alloc: Global,
    header: &Header,
    so_far: SoFar,
    line: &[u8],
) -> Result<ClusterLine, ReadError>
    ensures reading { Tells result (cluster_line_of header.now so_far line.now) }
    ensures allowed { IfOk result (IsAllowedClusterLine header.now so_far) }
{
    if is_blank(line) {
        return Ok(ClusterLine::Blank);
    }
    if line == b"end".as_slice() {
        return Ok(ClusterLine::End);
    }
    let words = words(alloc, line)?;
    Ok(ClusterLine::Event(event(alloc, header, so_far, &words)?))
}

/// Whether the line is empty or a comment.
pub fn is_blank(line: &[u8]) -> bool
    ensures { result ≡ is_blank line.now }
{
    match line {
        [] => true,
        [first, ..] => *first == b'#',
    }
}

/// The words of a line.
pub fn words(alloc: Global, line: &[u8]) -> Result<Vec<&[u8]>, AllocError>
    ensures { IfOk result (λ words. map (λ w. w.now) words.items ≡ words_of line.now) }
{
    line.split(|b| *b == b' ').collect(alloc)
}
