// What is proved of ticks over memory. The function says the statement in its contract, so that the check asks for its
// proof; it computes nothing.
ghost use Rattle.tick.specs.Home.{MemoryComesHome};

// By ticks alone, each of whose arrivals comes within d ticks of its step, all are home after (squares left + 1) times
// d ticks, from any memory that calls have led to.
pub fn memory_comes_home_stands() -> u8
    ensures { MemoryComesHome }
{
    0
}
