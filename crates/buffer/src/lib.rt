// The lent buffer of a line: its limits, its bytes, the plan at its front and what things in it were made from, read in place.
#![tactic(auto)]

pub mod bytes;
pub mod joins;
pub mod layout;
pub mod look;
pub mod origin;
pub mod record;
pub mod sets;
pub mod status;

// The line as a type, which has its own limits (document 01, "The limits belong to the line itself"). A line's values lie in its buffer.
#[derive(Clone, Copy)]
pub struct Line {}

impl Line {
    // "a lent buffer of 61,440 bytes"
    pub const STATE_SIZE: usize = 61_440;
    // "64 log entries a node"
    pub const LOG_LIMIT: u32 = 64;
    // "8 messages on a belt"
    pub const QUEUE_LIMIT: u32 = 8;
    // "64 held records a node"
    pub const HELD_LIMIT: u32 = 64;
    // "64 targets a node"
    pub const TARGET_LIMIT: u32 = 64;
    // "1,000,000 accepted steps", of each console
    pub const STEP_LIMIT: u32 = 1_000_000;
    // "a console number 0..3"
    pub const CONSOLES: usize = 4;
}
