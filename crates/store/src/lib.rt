// What the store is asked to change, and where it finds a memory (paper 01, "The store").
#![tactic(auto)]

// A change of one kept memory: the secondary records, and one channel's level.
#[derive(Clone, Copy)]
pub enum Edit {
    Up(u32, u32),
    Down(u32, u32),
    Followon(u32),
    Link(u32, u32),
    Level(u32, u8),
}

// Where a store is out of form: at the first slot that is out of form by itself, else at the first that repeats an earlier one, else at the first
// patch entry that is out of form; counted from 0.
#[derive(Clone, Copy, PartialEq, Eq, Debug)]
pub enum FormError {
    BadSlot(usize),
    Repeated(usize),
    BadEntry(usize),
}
