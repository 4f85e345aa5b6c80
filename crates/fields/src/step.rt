// One step of an iteration, whatever it hands out: what it says, and the state behind it.
use protobuf::refusal::Refusal;

// What it says is an item, or that there are no more, or a refusal. Behind the last two the state is the ended one, which each step's own
// clause says.
#[derive(Clone, Copy)]
pub struct Step<T, S> {
    pub said: Result<Option<T>, Refusal>,
    pub next: S,
}
