// What a tick does, answers and leaves: the types of the rules. The rules themselves are definitions (`specs/Ticks.antt`), and what is
// promised of lists of ticks is proved of them here; the code is crate `regulator`.
#![tactic(auto)]

ghost use Rattle.std.specs.Prelude.{◌≡◌};
ghost use Rattle.rules.specs.Ticks.{refused_number, refusal_in, outputs_in};

use acting_accounting::Accounted;
use acting_commanding::Regulated;
use acting_supervising::Supervised;
use blocks::Blocks;
use showing::FIELDS;

// Why a tick is refused: the record is outside its limits. Its number is 4.
#[derive(Clone, Copy, PartialEq, Eq)]
pub enum Refused {
    Record,
}

impl Refused {
    pub fn number(self) -> u32
        ensures { result ≡ refused_number self }
    {
        match self {
            Refused::Record => 4,
        }
    }
}

// What a tick answers: its outputs, or the refusal.
pub type Reply = Result<[u32; FIELDS], Refused>;

// The number of a tick's answer, 0 where it is accepted.
pub fn refusal_in(reply: Reply) -> u32
    ensures { result ≡ refusal_in reply }
{
    match reply {
        Ok(_) => 0,
        Err(refused) => refused.number(),
    }
}

// Its outputs, all 0 where it is refused.
pub fn outputs_in(reply: Reply) -> [u32; FIELDS]
    ensures { result ≡ outputs_in reply }
{
    reply.unwrap_or([0u32; FIELDS])
}

// The answer, and what stands after it: the next record, or the next state alone, as no tick changes the settings. What is refused is left
// as it was.
#[derive(Clone, Copy)]
pub struct Ticked<S> {
    pub reply: Reply,
    pub next: S,
}

// What is done: rules 2 and 7, 8, 9, and what an ended move leaves.
#[derive(Clone, Copy)]
pub struct Acted {
    pub supervised: Supervised,
    pub blocks: Blocks,
    pub regulated: Regulated,
    pub accounted: Accounted,
}
