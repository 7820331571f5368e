// The command line program's work: the bytes of an input to the bytes of its answer.
#![tactic(auto)]

ghost use Rattle.std.specs.Prelude.{MatchOption};
ghost use Rattle.minuska.specs.Computed.Outcome.{replay_outcome};
ghost use Rattle.decimal.specs.Computed.Put.{HasRoom, Puts};
ghost use Rattle.cli.specs.Output.{answered, answer_text};
ghost use Rattle.cli.specs.Contract.{max_output, AnswerContract};
ghost use Rattle.cli.specs.Computed.Lines.{request_in};
ghost use Rattle.cli.specs.Computed.Answer.{Answers, Unread};

use crate::lines::four_lines;
use crate::print::{put_not_reproduced, put_refusal, put_reproduced};
use decimal::Text;
use decimal::line::{read_items, read_limit, read_log};
use minuska::Refusal;

mod lines;
mod print;

// An output slice of this many bytes holds every answer.
pub const MAX_OUTPUT: usize = 28672;

// Puts the answer to a request, unless it is refused.
fn answer_request(
    table: &[i64],
    configuration: &[i64],
    log: &[u16],
    limit: usize,
    text: &mut Text,
) -> Result<(), Refusal>
    requires { HasRoom text.old max_output }
    ensures { Answers text.old (replay_outcome table.now configuration.now log.now limit 1024 256 4096) text.new result }
{
    let mut out = [0i64; 1024];
    let mut choices = [0u16; 256];
    let mut work = [0i64; 4096];
    let answer = replay::replay_counted(
        table,
        configuration,
        log,
        limit,
        &mut out,
        &mut choices,
        &mut work,
    )?;
    match answer {
        Some(nodes) => put_reproduced(text, &choices[..log.len()], &out[..2 * nodes]),
        None => put_not_reproduced(text),
    }
    Ok(())
}

// Puts the answer to an input, unless it is refused. There is no heap: each line's numbers have an array, and how many of its places the line has filled. None where the input is no request, and then nothing is put.
fn answer_input(input: &[u8], text: &mut Text) -> Option<Result<(), Refusal>>
    requires { HasRoom text.old max_output }
    ensures { MatchOption result (Unread input.now text.old text.new) (Answers text.old (answered (request_in input.now)) text.new) }
{
    let lines = four_lines(input)?;
    let mut table = [0i64; 2048];
    let words = read_items(lines.table, &mut table)?;
    let mut configuration = [0i64; 1024];
    let more = read_items(lines.configuration, &mut configuration)?;
    let mut log = [0u16; 256];
    let actions = read_log(lines.log, &mut log)?;
    let limit = read_limit(lines.limit)?;
    Some(answer_request(
        &table[..words],
        &configuration[..more],
        &log[..actions],
        limit as usize,
        text,
    ))
}

// Puts the answer to an input. What is no request is refused as unreadable.
fn put_answer(input: &[u8], text: &mut Text)
    requires { HasRoom text.old max_output }
    ensures { Puts text.old (answer_text (answered (request_in input.now))) text.new }
{
    let answered = answer_input(input, text).unwrap_or(Err(Refusal::Unreadable));
    if let Err(refusal) = answered {
        put_refusal(text, refusal);
    }
}

// The text of the answer to an input, at the start of the output, and its length. An output shorter than `MAX_OUTPUT` gets nothing.
pub fn answer(input: &[u8], output: &mut [u8]) -> usize
    ensures { AnswerContract input.now output.old output.new result }
{
    if output.len() < MAX_OUTPUT {
        return 0;
    }
    let mut text = Text::new(output);
    put_answer(input, &mut text);
    text.at
}
