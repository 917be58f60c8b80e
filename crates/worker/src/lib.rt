// What a worker over lent memory is asked, where it stands and what a piece of its work did; specs/ has what it is to do.
#![tactic(auto)]

// What a worker is asked to do: with which end, seed and places, of how many workers it is which.
#[derive(Clone, Copy)]
#[repr(C)]
pub struct Asked {
    pub workers: u32,
    pub number: u32,
    pub end: u32,
    pub luck: u32,
    pub places: u32,
}

// Where a worker stands: what it was asked; how many messages wait, how many lines were said since none was left to tell, and how many of them were told;
// whether it found places for all that it begins with, and whether all is done.
#[derive(Clone, Copy)]
#[repr(C)]
pub struct Status {
    pub workers: u32,
    pub number: u32,
    pub end: u32,
    pub places: u32,
    pub waiting: usize,
    pub said: usize,
    pub told: usize,
    pub ready: bool,
    pub done: bool,
}

// What a piece of work did: how many letters it wrote, how many bytes it printed, and whether all is done.
#[derive(Clone, Copy)]
#[repr(C)]
pub struct Piece {
    pub letters: usize,
    pub bytes: usize,
    pub done: bool,
}
