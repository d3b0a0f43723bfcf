use answers::{Refusal, Seen, Served, View};
use feed::job::Job;

// A call on a rack that is set up, with any arguments.
#[derive(Clone, Copy, PartialEq, Eq, Debug)]
pub enum Call {
    Order(usize, Job),
    Slot(usize),
    Look(usize),
    Show,
}

// A call with its answer.
#[derive(Clone, Copy, PartialEq, Eq, Debug)]
pub enum Event {
    Ordered(usize, Job, Result<(), Refusal>),
    Slotted(usize, Result<Served, Refusal>),
    Looked(usize, Result<Seen, Refusal>),
    Shown(View),
}
