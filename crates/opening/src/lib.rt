// What is given at opening, for all the messages of a file.

#![tactic(auto)]

// Today, the time hhmmss, the data type and the clock value.
#[derive(Clone, Copy)]
pub struct Opening {
    pub today: calendar::Date,
    pub time: u32,
    pub kind: u32,
    pub clock: u64,
}
