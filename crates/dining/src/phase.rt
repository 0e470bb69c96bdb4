// What a drinker is doing at the diner.
#[derive(Clone, Copy, PartialEq, Eq, Debug)]
pub enum Phase {
    Thinking,
    Hungry,
    Eating,
}
