// Where the parts of a line lie in its buffer (docs/LAYOUT.md).
use crate::Line;

// A number, such as a list's count, which stands in front of its slots.
pub const COUNT: usize = 4;

// The accepted steps of each console, behind the plan.
pub const STEPS: usize = 512;

// A node's page; node 0's stands behind the plan's.
pub const PAGE: usize = 4_096;

// In it: its time, its log, its held records, its targets, its kept answer, and what is unused.
pub const TIME: usize = 4;

pub const LOG: usize = 8;

pub const HELD: usize = 1_548;

pub const TARGETS: usize = 2_832;

pub const KEPT: usize = 3_604;

pub const PAGE_REST: usize = 3_632;

// The channels' blocks, and one of them.
pub const BLOCKS: usize = 53_248;

pub const BLOCK: usize = 320;

// In it, behind the mark: what is taken, what is heard, the queue, the low clock's part, and what is unused.
pub const TAKEN: usize = 4;

pub const HEARD: usize = 8;

pub const QUEUE: usize = 24;

pub const LOW: usize = 188;

pub const BLOCK_REST: usize = 208;

// Where the slots of each list start, behind its count.
pub const LOG_SLOTS: usize = LOG + COUNT;

pub const HELD_SLOTS: usize = HELD + COUNT;

pub const TARGET_SLOTS: usize = TARGETS + COUNT;

pub const KEPT_SLOT: usize = KEPT + COUNT;

pub const QUEUE_SLOTS: usize = QUEUE + COUNT;

// A slot's size: a log entry's, a held record's, a target's, a message's.
pub const ENTRY_SIZE: usize = 24;

pub const HELD_SIZE: usize = 20;

pub const TARGET_SIZE: usize = 12;

pub const MESSAGE_SIZE: usize = 20;

// What is unused behind the steps, and at the end.
pub const STEPS_REST: usize = STEPS + Line::CONSOLES * COUNT;

pub const TAIL: usize = 60_928;
