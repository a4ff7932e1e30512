// What the end of a replay is worked out from, without writing the state: the node's held records and targets, and the replay table, gathered row by row (document 01, "While B replays" and "Placing").
#![tactic(auto)]

ghost use Rattle.std.specs.Prelude.{◌≡◌, cond, ◌+◌, ◌≤◌, ◌<◌, [], ◌∷◌, ◌++◌, map, length, get_or, eqb, true};
ghost use Rattle.plan.specs.Mask.{listed};
ghost use Rattle.plan.specs.Plan.{plan_of, leaving, entering};
ghost use Rattle.rules.specs.Line.{node_at};
ghost use Rattle.rules.specs.Replay.{fixed_at, floor_of};
ghost use Rattle.state.specs.State.{line_of};
ghost use Rattle.slots.specs.Slots.{held_is, target_is};
ghost use Rattle.buffer.specs.Holds.{AtNode};
ghost use Rattle.buffer.specs.Nothing.{no_held, no_target};
ghost use Rattle.replay_items.specs.Items.{held_with, held_by, Asked, FoundFrom, is_target, IsPlace, time_at, listed_of, one_slot, row_slots, slots_from};

use buffer::{Line, look};
use plan::Record;
use plan::masks::Channels;
use slots::{Goal, Waiting};
use std::marker::Model;

// The most records that a node holds, and so the most that a replay's end logs.
pub const MOST: usize = Line::HELD_LIMIT as usize;

// ---- the targets

// The targets of a node, in their order.
// An array with its count: no heap in the engine.
#[derive(Drop)]
pub struct Goals {
    list: [Goal; MOST],
    count: usize,
}

impl Model for Goals {
    ghost use Rattle.std.specs.Prelude.{List, ◌≤◌, take, map};
    ghost use Rattle.rules.specs.Line.{Target};
    ghost use Rattle.slots.specs.Slots.{target_is};

    ghost Value = { List Target };

    ghost view = { λ g. map target_is (take g.count g.list) };

    ghost invariant = { λ g. g.count ≤ 64 };
}

impl Goals {
    pub fn of(s: &[u8], n: usize) -> Goals
        requires { AtNode s.now n }
        ensures { result ≡ (node_at (line_of s.now) n).targets }
    {
        let mut list = [Goal {
            time: 0,
            parent: 0,
            sent: 0,
        }; MOST];
        let count = node_fields::target_count(s, n);
        for i in 0..count {
            list[i] = node_fields::target_of(s, n, i);
        }
        Goals { list, count }
    }

    pub fn list(&self) -> &[Goal]
        ensures { map target_is result.now ≡ self.now }
    {
        &self.list[..self.count]
    }

    // The first target from a place on that is a held record.
    fn position(&self, h: Waiting, from: usize) -> Option<usize>
        ensures { FoundFrom (is_target (held_is h)) no_target self.now from result }
    {
        for i in from..self.count {
            let g = self.list[i];
            if (g.parent == u32::from(h.sender)) & (g.sent == h.time) {
                return Some(i);
            }
        }
        None
    }

    // Which target a held record is. No two targets are one record; it is looked for from a place on first, since a row's records come again in the order of their targets.
    fn place_of(&self, h: Waiting, hint: Option<usize>) -> Option<usize>
        ensures { FoundFrom (is_target (held_is h)) no_target self.now 0 result }
    {
        if let Some(from) = hint {
            let near = self.position(h, from);
            if near.is_some() {
                return near;
            }
        }
        self.position(h, 0)
    }

    // A target's time, 0 for none.
    fn time_at(&self, place: Option<usize>) -> u32
        requires { IsPlace self.now place }
        ensures { result ≡ time_at self.now place }
    {
        match place {
            Some(i) => self.list[i].time,
            None => 0,
        }
    }
}

// ---- what is asked

// The end of a node's replay: the channels that leave the node, its targets, and how many records it holds, the last one perhaps behind those that are stored.
#[derive(Clone, Copy)]
pub struct Ending<'a> {
    pub node: usize,
    pub leaving: Channels,
    pub targets: &'a Goals,
    pub held: usize,
    pub last: Option<Waiting>,
}

// Held record i of a node, `last` behind those that are stored.
pub fn held_at(s: &[u8], n: usize, last: Option<Waiting>, i: usize) -> Waiting
    requires { AtNode s.now n × (i < length (held_with (line_of s.now) n last)) }
    ensures { held_is result ≡ get_or (held_with (line_of s.now) n last) i no_held }
{
    if i < node_fields::held_count(s, n) {
        return node_fields::held_of(s, n, i);
    }
    last.unwrap()
}

// ---- the replay table

// An item of the replay table: its row, row time, fixed column (0 for a free record) and floor, and the number of its held record.
#[derive(Clone, Copy)]
pub struct Listed {
    pub row: u32,
    pub time: u32,
    pub fixed: u32,
    pub floor: u32,
    pub number: u32,
}

// The replay table: its items, their numbers in a list each, as the placing takes them.
#[derive(Drop)]
pub struct Items {
    rows: [u32; MOST],
    times: [u32; MOST],
    fixed: [u32; MOST],
    floors: [u32; MOST],
    numbers: [u32; MOST],
    count: usize,
}

impl Model for Items {
    ghost use Rattle.std.specs.Prelude.{List, ◌≤◌};
    ghost use Rattle.replay_items.specs.declared.Listed.{Listed};

    ghost Value = { List Listed };

    ghost use Rattle.replay_items.specs.Listing.{listed_to};

    ghost view = { λ t. listed_to t.rows t.times t.fixed t.floors t.numbers t.count };

    ghost invariant = { λ t. t.count ≤ 64 };
}

impl Items {
    pub fn new() -> Items
        ensures { result ≡ [] }
    {
        Items {
            rows: [0; MOST],
            times: [0; MOST],
            fixed: [0; MOST],
            floors: [0; MOST],
            numbers: [0; MOST],
            count: 0,
        }
    }

    fn push(&mut self, x: Listed)
        requires { length self.old < 64 }
        ensures { self.new ≡ self.old ++ x ∷ [] }
    {
        let k = self.count;
        self.rows[k] = x.row;
        self.times[k] = x.time;
        self.fixed[k] = x.fixed;
        self.floors[k] = x.floor;
        self.numbers[k] = x.number;
        self.count = k + 1;
    }

    pub fn rows(&self) -> &[u32]
        ensures { result.now ≡ map (λ x. x.row) self.now }
    {
        &self.rows[..self.count]
    }

    pub fn times(&self) -> &[u32]
        ensures { result.now ≡ map (λ x. x.time) self.now }
    {
        &self.times[..self.count]
    }

    pub fn fixed(&self) -> &[u32]
        ensures { result.now ≡ map (λ x. x.fixed) self.now }
    {
        &self.fixed[..self.count]
    }

    pub fn floors(&self) -> &[u32]
        ensures { result.now ≡ map (λ x. x.floor) self.now }
    {
        &self.floors[..self.count]
    }

    pub fn numbers(&self) -> &[u32]
        ensures { result.now ≡ map (λ x. x.number) self.now }
    {
        &self.numbers[..self.count]
    }
}

// ---- a held record's item

// "A free record's floor is the greatest entry for B among children whose belts take it."
fn floor_of(s: &[u8], e: &Ending, r: Record) -> u32
    requires { AtNode s.now e.now.node × (listed e.now.leaving ≡ leaving (plan_of s.now) e.now.node) }
    ensures { result ≡ floor_of (line_of s.now) e.now.node r }
{
    let taking = e.leaving.taking(s, r);
    let mut floor: u32 = 0;
    for b in taking {
        floor = floor.max(channel_fields::taken_of(s, b));
    }
    floor
}

// The floor of a held record that is fixed at a column, 0 for free.
fn floor_with(s: &[u8], e: &Ending, h: Waiting, fixed: u32) -> u32
    requires { Asked s.now e.now }
    ensures { result ≡ cond (eqb fixed 0) (floor_of (line_of s.now) e.now.node h.what) 0 }
{
    if fixed == 0 {
        floor_of(s, e, h.what)
    } else {
        0
    }
}

// ---- the table, row by row

// Held record i behind the items, if it is of the parent's row: where the row's next target is looked for then.
fn gather_one(
    s: &[u8],
    e: &Ending,
    i: usize,
    parent: usize,
    row: u32,
    hint: Option<usize>,
    items: &mut Items,
) -> Option<usize>
    requires { Asked s.now e.now × (i < e.now.held) × (eqb (get_or (held_by s.now e.now) i no_held).sender parent ≡ true → length items.old < 64) }
    ensures { items.new ≡ items.old ++ map (listed_of (line_of s.now) e.now.node (held_by s.now e.now)) (one_slot (held_by s.now e.now) parent row i) }
{
    let h = held_at(s, e.node, e.last, i);
    if usize::from(h.sender) != parent {
        return hint;
    }
    let place = e.targets.place_of(h, hint);
    // "A target is fixed at its B-time": 0 for a free record.
    let fixed = e.targets.time_at(place);
    let floor = floor_with(s, e, h, fixed);
    items.push(Listed {
        row,
        time: h.time,
        fixed,
        floor,
        number: i as u32,
    });
    place
}

// A parent's row behind the items that there are.
fn gather_row(s: &[u8], e: &Ending, parent: usize, row: u32, items: &mut Items)
    requires { Asked s.now e.now × (length items.old + length (row_slots (held_by s.now e.now) parent row) ≤ 64) }
    ensures { items.new ≡ items.old ++ map (listed_of (line_of s.now) e.now.node (held_by s.now e.now)) (row_slots (held_by s.now e.now) parent row) }
{
    let mut hint: Option<usize> = None;
    for i in 0..e.held {
        hint = gather_one(s, e, i, parent, row, hint, items);
    }
}

// "The replay table lists items by row (0..3, parents in rising number), then by row time".
pub fn gather(s: &[u8], e: &Ending, items: &mut Items)
    requires { Asked s.now e.now × (length items.old + length (slots_from (line_of s.now) (held_by s.now e.now) 0 (entering (plan_of s.now) e.now.node)) ≤ 64) }
    ensures { items.new ≡ items.old ++ map (listed_of (line_of s.now) e.now.node (held_by s.now e.now)) (slots_from (line_of s.now) (held_by s.now e.now) 0 (entering (plan_of s.now) e.now.node)) }
{
    for (row, b) in plan::masks::entering(s, e.node).enumerate() {
        gather_row(s, e, look::sender_of(s, b), row as u32, items);
    }
}
