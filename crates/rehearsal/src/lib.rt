// A rehearsal (a recorded run): a council's setup and its bags, from the bytes that were given to the text that is printed.
#![tactic(auto)]

ghost use Rattle.std.specs.Prelude.{◌≡◌, ℕ, List, [], ◌∷◌, IfOk, string_bytes};
ghost use Rattle.rehearsal.specs.Bags.{bags_of, counted};
ghost use Rattle.rehearsal.specs.Cuts.{CutShort, short_text};
ghost use Rattle.rehearsal.specs.Lines.{bag_lines, council_lines, host_line, kind_lines, lines_of};
ghost use Rattle.rehearsal.specs.Texts.{text_of};

use bags::count_bags;
use candidate::Candidate;
use candidate::snapshot::Snapshot;
use candidate::term::Term;
use line::Line;
use read::{Head, Kind, Packed, read_head, read_list};
use rota::TurnByTurn;
use sets::has_host;
use setup::Setup;
use std::alloc::{AllocError, Global};

mod bags;
mod line;
mod read;

// Just this line.
fn one_line(heap: Global, line: Line) -> Result<Vec<Line>, AllocError>
    ensures { IfOk result (λ v. v.items ≡ line ∷ []) }
{
    Ok(vec![in heap; line]?)
}

// What is printed of the bags, which are not played yet.
fn bag_lines(heap: Global, bytes: &[u8]) -> Result<Vec<Line>, AllocError>
    ensures { IfOk result (λ v. v.items ≡ bag_lines (counted (bags_of bytes.now))) }
{
    let bags = count_bags(bytes);
    let mut lines = Vec::new(heap);
    if bags.whole > 0 {
        lines.push(Line::Unplayed(bags.whole))?;
    }
    if bags.torn {
        lines.push(Line::Short)?;
    }
    Ok(lines)
}

// What is printed of a host, while nobody decides.
fn host_line(faulty: u16, host: u8) -> Line
    ensures { result ≡ host_line faulty host }
{
    if has_host(faulty, host) {
        Line::HostFaulty(host)
    } else {
        Line::HostOpen(host)
    }
}

// The lines of a council of these candidates and inputs. Nothing else takes the five together, so they are no struct.
fn council_lines<C: Candidate>(
    heap: Global,
    head: Head,
    candidates: &[C],
    inputs: &[C],
    bags: &[u8],
) -> Result<Vec<Line>, AllocError>
    ensures { IfOk result (λ v. v.items ≡ council_lines C.Candidate.equal head candidates.now inputs.now bags.now) }
{
    let setup = Setup {
        n: head.n,
        t: head.t,
        faulty: head.faulty,
        candidates,
        inputs,
        rota: &TurnByTurn::new(head.n),
    };
    if let Err(refusal) = setup.judge() {
        return one_line(heap, Line::Setup(refusal));
    }
    let mut lines = bag_lines(heap, bags)?;
    lines.extend((0..head.n).map(|host| host_line(head.faulty, host)))?;
    Ok(lines)
}

// The lines behind the head, for one kind of candidate.
fn kind_lines<C: Candidate + Packed + Copy>(
    heap: Global,
    head: Head,
    bytes: &[u8],
) -> Result<Vec<Line>, AllocError>
    ensures { IfOk result (λ v. v.items ≡ kind_lines C.Candidate.equal C.Packed.SIZE C.Packed.unpacked head bytes.now) }
{
    let inputs_at = 4 + C::SIZE * usize::from(head.m);
    let bags_at = inputs_at + C::SIZE * usize::from(head.n);
    if bytes.len() < bags_at {
        return one_line(heap, Line::Short);
    }
    let candidates: Vec<C> = read_list(heap, &bytes[4..inputs_at])?;
    let inputs: Vec<C> = read_list(heap, &bytes[inputs_at..bags_at])?;
    council_lines(heap, head, &candidates, &inputs, &bytes[bags_at..])
}

// The lines of a rehearsal.
fn lines_of(heap: Global, bytes: &[u8]) -> Result<Vec<Line>, AllocError>
    ensures { IfOk result (λ v. v.items ≡ lines_of bytes.now) }
{
    let Some(head) = read_head(bytes) else {
        return one_line(heap, Line::Short);
    };
    match head.kind {
        Some(Kind::Snapshots) => kind_lines::<Snapshot>(heap, head, bytes),
        Some(Kind::Terms) => kind_lines::<Term>(heap, head, bytes),
        None => one_line(heap, Line::Sort),
    }
}

// The text of lines, one below the other.
fn text_of(heap: Global, lines: &[Line]) -> Result<String, AllocError>
    ensures { IfOk result (λ s. string_bytes s ≡ text_of lines.now) }
{
    let mut text = String::new(heap);
    for line in lines {
        writeln!(text, "{line}")?;
    }
    Ok(text)
}

// All that a rehearsal of these bytes prints; an `Err` stands for want of memory.
// Wherever a setup is cut off before its end, `short` is all.
pub fn rehearse(heap: Global, bytes: &[u8]) -> Result<String, AllocError>
    ensures text { IfOk result (λ s. string_bytes s ≡ text_of (lines_of bytes.now)) }
    ensures cut { IfOk result (λ s. (whole : List ℕ) → CutShort whole bytes.now → string_bytes s ≡ short_text) }
{
    let lines = lines_of(heap, bytes)?;
    text_of(heap, &lines)
}
