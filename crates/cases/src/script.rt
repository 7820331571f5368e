// The lines, one after the other. A line is a key, which its first letter tells, numbers, and behind a semicolon a name; what a table, a configuration and a
// log line say is kept.
use crate::build::{shorts, words};
use crate::call::Call;
use crate::show;
use crate::text::{front, key, parts};
use minuska::Refusal;
use std::io;

// The words and actions that are kept, at the starts of the arrays, and how many: there is no heap for vectors.
#[derive(Drop)]
struct Kept {
    table: [i64; 65600],
    table_len: usize,
    configuration: [i64; 65600],
    configuration_len: usize,
    log: [u16; 4200],
    log_len: usize,
}

impl Kept {
    fn table(&self) -> &[i64] {
        front(&self.table, self.table_len)
    }

    fn configuration(&self) -> &[i64] {
        front(&self.configuration, self.configuration_len)
    }

    fn keep_log(&mut self, numbers: &[u8]) {
        let mut read = [0i64; 4200];
        let count = words(numbers, &mut read);
        self.log_len = shorts(front(&read, count), &mut self.log);
    }

    fn call(&self, numbers: &[u8]) -> Call<'_> {
        let mut read = [0i64; 8];
        words(numbers, &mut read);
        Call {
            table: self.table(),
            configuration: self.configuration(),
            log: front(&self.log, self.log_len),
            numbers: read,
        }
    }
}

// A check of what has a name.
fn checked(rt: &impl Print, what: &str, name: &[u8], check: Result<(), Refusal>) -> io::Result<()> {
    if name.is_empty() {
        return Ok(());
    }
    print!(rt; "{what}, ")?;
    rt.write_all(name)?;
    print!(rt; ": ")?;
    show::answer(rt, check.map(|_| show::Good))?;
    println!(rt; "")
}

// A call: the numbers of its line are its other arguments. The letter is the file's: an enum of calls would be made of it by the same match.
fn run_call(rt: &impl Print, letter: u8, name: &[u8], call: Call) -> io::Result<()> {
    rt.write_all(name)?;
    print!(rt; ": ")?;
    match letter {
        b'v' => call.value(rt),
        b'a' => call.part(rt),
        b'm' => call.left(rt),
        b'w' => call.reasons(rt),
        b's' => call.step(rt),
        b'b' => call.rule(rt),
        b'r' => call.run(rt),
        b'p' => call.replay(rt),
        _ => Ok(()),
    }?;
    println!(rt; "")
}

// No key has a digit, a minus or an x, so that the numbers of a line may be read from its start. The letter is matched here, where each step stands: an enum of
// keys would be made of it by the same match.
fn run_line(rt: &impl Print, line: &[u8], kept: &mut Kept) -> io::Result<()> {
    let (numbers, name) = parts(line);
    match key(line) {
        b't' => {
            kept.table_len = words(numbers, &mut kept.table);
            checked(rt, "table", name, table::check_table(kept.table()))
        }
        b'c' => {
            kept.configuration_len = words(numbers, &mut kept.configuration);
            checked(
                rt,
                "configuration",
                name,
                term::check_configuration(kept.configuration()),
            )
        }
        b'l' => {
            kept.keep_log(numbers);
            Ok(())
        }
        b'#' => Ok(()),
        letter => run_call(rt, letter, name, kept.call(numbers)),
    }
}

fn run_lines(rt: &impl Print, input: &[u8], kept: &mut Kept) -> io::Result<()> {
    for line in input.split(|byte| *byte == b'\n') {
        run_line(rt, line, kept)?;
    }
    Ok(())
}

// The bytes that are read at most.
pub const MAX_INPUT: usize = 131072;

// How often the input is gone through: once. One that is full and has no line's end is a line that never ends: it is run as often as it has bytes.
fn turns(input: &[u8]) -> usize {
    let full = input.len() == MAX_INPUT;
    if full && input.iter().position(|byte| *byte == b'\n').is_none() {
        return MAX_INPUT;
    }
    1
}

pub fn all(rt: &impl Print, input: &[u8]) -> io::Result<()> {
    let mut kept = Kept {
        table: [0; 65600],
        table_len: 0,
        configuration: [0; 65600],
        configuration_len: 0,
        log: [0; 4200],
        log_len: 0,
    };
    for _ in 0..turns(input) {
        run_lines(rt, input, &mut kept)?;
    }
    Ok(())
}
