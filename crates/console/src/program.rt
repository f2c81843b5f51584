// A program reads its text, and works on the field that the text begins with and on the lines after it.
use super::input::{file, standard_input};
use super::words::answered;
use anyhow::{anyhow, bail};
use std::env;
use std::process::ExitCode;
use text::{Failure, FieldText, lines_of, read_field, rows_in};

// What one program is and the other is not: its name, its help and its work.
pub trait Program {
    const NAME: &'static str;

    const HELP: &'static str;

    // Works on the field that is shown; the text's lines and how many of them are rows of the field tell what follows.
    fn work(rt: &HostRuntime, shown: FieldText, lines: &[&[u8]], rows: usize) -> anyhow::Result<()>;
}

// Has the program work on a text; a field that can't be read is turned away.
fn work_on<P: Program>(rt: &HostRuntime, text: &[u8]) -> anyhow::Result<()> {
    let lines = lines_of(rt.alloc(), text)?;
    let rows = rows_in(lines.as_slice());
    let shown = match read_field(rt.alloc(), &lines[..rows]) {
        Err(Failure::Memory) => bail!("out of memory"),
        shown => shown,
    };
    match answered(rt, shown)? {
        Some(shown) => P::work(rt, shown, lines.as_slice(), rows),
        None => Ok(()),
    }
}

// Does what the arguments ask for: prints the help, or works on standard input or on the file that the one argument names.
fn run_asked<P: Program>(rt: &HostRuntime) -> anyhow::Result<()> {
    let heap = rt.alloc();
    let mut args = env::args(rt)?;
    let _ = args.next();
    let name = args.next();
    if args.next().is_some() {
        bail!("more than one argument; try --help");
    }
    let text = match name.as_ref().map(|name| name.as_str()) {
        None => standard_input(rt)?,
        Some("--help") => return Ok(rt.print(P::HELP)?),
        Some(name) if name.starts_with('-') => {
            return Err(anyhow!(format!(in heap; "unknown option {name}; try --help")?));
        }
        Some(name) => file(rt, heap, name)?,
    };
    work_on::<P>(rt, text.as_slice())
}

// Runs a program; what goes wrong is told on standard error, and by the exit status.
pub fn run<P: Program>(rt: &HostRuntime) -> anyhow::Result<ExitCode> {
    match run_asked::<P>(rt) {
        Ok(()) => Ok(ExitCode::SUCCESS),
        Err(e) => {
            eprintln!(rt; "{}: {e}", P::NAME)?;
            Ok(ExitCode::FAILURE)
        }
    }
}
