// Plays a row of events in a hall.
#![tactic(auto)]

use console::{Program, answered, run, tell};
use session::{Clock, Command, Place, Session, Ticks, letter_of, read_command};
use std::io::Write;
use std::process::ExitCode;
use text::{Answer, Failure, FieldText};

// The hall that is played, and where it is told.
#[derive(Drop)]
struct Game<'a> {
    rt: &'a HostRuntime,
    session: Session,
    clock: Clock,
}

impl Game<'_> {
    // Has a shuttle ask for its next square; a step that is granted is no tick old.
    fn step(&mut self, shuttle: u64) -> anyhow::Result<()> {
        let answer = self.session.step(shuttle);
        if let Ok(Answer::Granted) = answer {
            self.clock.stepped(shuttle);
        }
        tell(self.rt, answer.map_err(Failure::Refused))
    }

    // Prints the way of a shuttle from its bay through these squares.
    fn print_way(&self, shuttle: u64, places: &[Place]) -> anyhow::Result<()> {
        let way = self.session.way(self.rt.alloc(), shuttle, places);
        match answered(self.rt, way)? {
            Some(Some(letters)) => {
                let mut line = letters;
                line.push(b'\n')?;
                self.rt.stdout().write_all(line.as_slice())?;
            }
            Some(None) => self.rt.println("none")?,
            None => {}
        }
        Ok(())
    }

    // Makes ticks, and prints a line for each: the letter of the shuttle whose step was granted, or
    // a dash.
    fn make_ticks(&mut self, ticks: Ticks) -> anyhow::Result<()> {
        let heap = self.rt.alloc();
        let mut lines = Vec::new(heap);
        for _ in 0..ticks.count {
            let whose = match self.session.tick(heap, &mut self.clock, ticks.due) {
                Err(Failure::Refused(_)) => None,
                whose => whose?,
            };
            lines.push(whose.map_or(b'-', |shuttle| letter_of(shuttle)))?;
            lines.push(b'\n')?;
        }
        self.rt.stdout().write_all(lines.as_slice())?;
        Ok(())
    }

    // Prints the picture of the hall.
    fn show(&self) -> anyhow::Result<()> {
        let picture = self.session.picture(self.rt.alloc())?;
        self.rt.stdout().write_all(picture.as_slice())?;
        Ok(())
    }

    // Carries out what a command asks for.
    fn carry_out(&mut self, command: Command) -> anyhow::Result<()> {
        match command {
            Command::Order(shuttle, ways) => {
                let answer = self
                    .session
                    .order(self.rt.alloc(), shuttle, ways.as_slice());
                tell(self.rt, answer)
            }
            Command::Step(shuttle) => self.step(shuttle),
            Command::Arrive(shuttle) => {
                let answer = self.session.arrive(shuttle);
                tell(self.rt, answer.map_err(Failure::Refused))
            }
            Command::Way(shuttle, places) => self.print_way(shuttle, places.as_slice()),
            Command::Tick(ticks) => self.make_ticks(ticks),
            Command::Show => self.show(),
        }
    }
}

struct Play;

impl Program for Play {
    const NAME: &'static str = "play";

    const HELP: &'static str =
        "play [FILE]: play a row of events in a hall, from FILE or standard input.

The field is rows of signs: . a free square, # a wall, a to p the bays of shuttles.
After an empty line each line is a command:
  order a rrddlluu   give shuttle a a route: left, right, up and down, back to its bay
  step a             shuttle a asks for its next square
  arrive a           shuttle a has come to its square
  way a 5,3 7,1      tell the shortest route of shuttle a from its bay through up to
                     eight squares, each as column and row from 0
  tick 20 d 3        make twenty ticks, each arrival due three ticks after its step
  show               show the hall
What happened prints 'granted', what did not 'not'. A way prints the letters of the
route, as an order has them, or 'none'. Each tick prints the letter of the shuttle whose
step was granted, or '-'. The picture has a capital letter
where a shuttle is and, while it moves, on the square that it comes from. What is
turned away prints 'refused' and a number, with words on standard error.
";

    // Plays each line after the empty one that ends the rows of the field.
    fn work(
        rt: &HostRuntime,
        shown: FieldText,
        lines: &[&[u8]],
        rows: usize,
    ) -> anyhow::Result<()> {
        let Some(session) = answered(rt, Session::open(rt.alloc(), shown))? else {
            return Ok(());
        };
        let clock = Clock::start(rt.alloc(), &session)?;
        let mut game = Game { rt, session, clock };
        for (place, line) in lines.iter().enumerate().skip(rows).skip(1) {
            let command = read_command(rt.alloc(), place as u64, line);
            if let Some(Some(command)) = answered(rt, command)? {
                game.carry_out(command)?;
            }
        }
        Ok(())
    }
}

fn main(rt: HostRuntime) -> anyhow::Result<ExitCode> {
    run::<Play>(&rt)
}
