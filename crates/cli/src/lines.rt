// The four lines.
ghost use Rattle.std.specs.Prelude.{◌≡◌, option_map};
ghost use Rattle.cli.specs.Computed.Lines.{first_lf, split_line, lines_of, texts};

// A line has no more bytes before its LF.
const MAX_LINE: usize = 16384;

// The lines of an input, without their LFs.
#[derive(Clone, Copy)]
pub struct Lines<'a> {
    pub table: &'a [u8],
    pub configuration: &'a [u8],
    pub log: &'a [u8],
    pub limit: &'a [u8],
}

// Where the first LF stands.
#[tactic(auto, using(crate::proofs::LinesLaw::lf_found, crate::proofs::LinesLaw::lf_nowhere))]
fn line_end(input: &[u8]) -> Option<usize>
    ensures { result ≡ first_lf input.now }
{
    input.iter().position(|byte| *byte == b'\n')
}

// The first line, and what stands behind its LF.
#[tactic(auto, using(crate::proofs::LinesLaw::lf_inside, crate::proofs::LinesLaw::taken), unfolding(crate::specs::Computed::Lines::split_line))]
fn split_line(input: &[u8]) -> Option<(&[u8], &[u8])>
    ensures { option_map (λ parts. (parts.0.now, parts.1.now)) result ≡ split_line input.now }
{
    let end = line_end(input)?;
    if MAX_LINE < end {
        return None;
    }
    Some((&input[..end], &input[end + 1..]))
}

#[tactic(auto, using(crate::proofs::LinesLaw::ending_more), unfolding(crate::specs::Computed::Lines::lines_of))]
pub fn four_lines(input: &[u8]) -> Option<Lines<'_>>
    ensures { option_map texts result ≡ lines_of input.now }
{
    let (table, rest) = split_line(input)?;
    let (configuration, rest) = split_line(rest)?;
    let (log, rest) = split_line(rest)?;
    let (limit, rest) = split_line(rest)?;
    if !rest.is_empty() {
        return None;
    }
    Some(Lines {
        table,
        configuration,
        log,
        limit,
    })
}
