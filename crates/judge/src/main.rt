// Judges a field and its routes.
#![tactic(auto)]

use console::{Program, run, tell, turn_away};
use std::process::ExitCode;
use text::{FieldText, judge_line};

struct Judge;

impl Program for Judge {
    const NAME: &'static str = "judge";

    const HELP: &'static str =
        "judge [FILE]: judge a field and its routes, from FILE or standard input.

The field is rows of signs: . a free square, # a wall, a to p the bays of shuttles.
After an empty line each line is a route in the letters l, r, u and d: the first
is that of shuttle a from its bay, the second that of b, and so on; 'c rrdd' is
that of c wherever it stands. For each line judge prints 'route ok', or the first
wrong step, from 0, or, if none is wrong but it ends outside the bay, how many it
has. What is turned away prints 'refused' and a number, with words on standard error.
";

    // Judges each line after the empty one that ends the rows of the field.
    fn work(
        rt: &HostRuntime,
        shown: FieldText,
        lines: &[&[u8]],
        rows: usize,
    ) -> anyhow::Result<()> {
        let field = match shown.field() {
            Ok(field) => field,
            Err(refusal) => return turn_away(rt, refusal),
        };
        for (k, (place, line)) in lines.iter().enumerate().skip(rows).skip(1).enumerate() {
            tell(rt, judge_line(rt.alloc(), &field, place as u64, k, line))?;
        }
        Ok(())
    }
}

fn main(rt: HostRuntime) -> anyhow::Result<ExitCode> {
    run::<Judge>(&rt)
}
