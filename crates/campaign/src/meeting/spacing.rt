//! How far after its last injection a row looks for visited states first, and how many steps are
//! between two meeting steps near it.
use crate::meeting::meeting_steps::spacing_of;
use crate::meeting::timers::Timers;
use model::Point;

/// Where rows look: how often the widest spacing is halved, and after how many eighths of it,
/// counted from their last injection, they look first.
#[derive(Clone, Copy)]
struct Plan {
    halvings: u32,
    eighths: u32,
}

// This many are tried.
const PLANS: usize = 8;

impl Plan {
    // What is tried. What a handler has brought about usually fades after some steps, and a row
    // that looks sooner finds no visited state.
    fn numbered(number: usize) -> Plan {
        let (halvings, eighths) = match number {
            0 => (0, 0),
            1 => (1, 0),
            2 => (2, 0),
            3 => (3, 0),
            4 => (3, 1),
            5 => (2, 1),
            6 => (2, 2),
            _ => (1, 2),
        };
        Plan { halvings, eighths }
    }
}

// The widest spacing is halved at most this often.
const MOST_HALVINGS: u32 = 3;

// After this many rows, their cost is judged: so many that rows from each step of the widest spacing
// are among them. A campaign of a few thousand rows would do many of them in a bad way if each way
// was tried for longer.
const ROWS: u32 = 64;

// This often as many rows look in the best way, before all are tried again.
const TURNS: u32 = 256;

// This many steps cost as much as a look that finds no visited state, and the one that it leaves.
const COST_OF_A_LOOK: u32 = 20;

// Of a row at most this many count: few rows of a worker are run far, and which places these look at
// first hardly matters.
const MOST: u32 = 512;

// This many visited states are kept at least: with all else that a row touches they stay in the
// cache that a processor has for itself. One is written where another one was, which would be out of
// that cache if there were three times as many.
const FEWEST_STATES: u32 = 128;

// At most this many: with few tasks they take some 30 MB, with 32 some 55 MB.
const MOST_STATES: u32 = 8192;

// One more is kept for so much that `ROWS` rows cost.
const COST_OF_A_STATE: u32 = 4;

// Beyond this, which is 12 steps of each row. Rows that cost little more meet rows of a moment ago.
const FREE: u32 = 768;

// A row of a timer leaves at most this many visited states. Others of the same phase find the first
// of them.
// If a row that is run far left many, they would take the places of these.
const STATES_OF_A_PHASE: usize = 8;

// Of rows of timers so many visited states are kept for each step of their spacing. They usually
// leave one or two in each, and reach those of the next period.
const STATES_OF_A_STEP: u32 = 4;

// And this many for the rows of a short block.
const STATES_OF_A_BLOCK: u32 = 256;

/// How many visited states are kept, and which are replaced when there are so many.
#[derive(Clone, Copy)]
pub(crate) struct Room {
    pub(crate) most: usize,
    /// Those that were put first, and no others.
    pub(crate) is_queue: bool,
}

/// How many steps are between two meeting steps near an injection, and how far after it the first one
/// is. Each way to look is tried with many rows. The one with which they cost least is kept for
/// long, and then all are tried again.
///
/// Rows of timers look once in a period, and aren't judged.
#[derive(Drop)]
pub(crate) struct Spacing {
    timers: Timers,
    // The spacing of the row on its way, if it is one of a timer; otherwise 0.
    phase: u32,
    widest: u32,
    steps: u32,
    delay: u32,
    // The number of the plan that is followed, and of the best.
    plan: usize,
    best: usize,
    least: u32,
    // How many turns the best is still kept; 0 while all are tried.
    turns: u32,
    rows: u32,
    cost: u32,
    // How many visited states are kept at most.
    room: u32,
}

impl Spacing {
    /// The first way that is tried: meeting steps are widest apart, if the base run has a checkpoint
    /// before each `stride`-th step.
    pub(crate) fn new(stride: u32, timers: Timers) -> Spacing {
        let widest = spacing_of(stride);
        Spacing {
            timers,
            phase: 0,
            widest,
            steps: widest,
            delay: 0,
            plan: 0,
            best: 0,
            least: u32::MAX,
            turns: 0,
            rows: 0,
            cost: 0,
            room: FEWEST_STATES,
        }
    }

    /// How many steps are between two meeting steps near an injection, if these are closest together.
    pub(crate) fn closest(&self) -> u32 {
        self.widest >> MOST_HALVINGS
    }

    /// The row of this point begins.
    pub(crate) fn begin_row(&mut self, point: &Point) {
        self.phase = self.timers.spacing(point.first().handler.number);
    }

    /// How many steps they are in the row on its way.
    pub(crate) fn steps(&self) -> u32 {
        if self.phase > 0 {
            self.phase
        } else {
            self.steps
        }
    }

    /// How many steps that row does after its last injection before it looks.
    pub(crate) fn delay(&self) -> u32 {
        if self.phase > 0 { 0 } else { self.delay }
    }

    /// How many visited states that row leaves at most.
    pub(crate) fn most_visited(&self) -> usize {
        if self.phase > 0 {
            STATES_OF_A_PHASE
        } else {
            usize::MAX
        }
    }

    /// How many visited states are kept at most. If rows cost little, they reach states that were
    /// left a moment ago, and a state that was left long ago is only in the way of these in a
    /// processor's cache. If rows are run far, each state that is found saves many steps.
    pub(crate) fn room(&self) -> Room {
        let most = if self.phase > 0 {
            let states = self.phase.saturating_mul(STATES_OF_A_STEP);
            states.saturating_add(STATES_OF_A_BLOCK).min(MOST_STATES)
        } else {
            self.room
        };
        Room {
            most: most as usize,
            is_queue: self.phase > 0,
        }
    }

    /// A row did this many steps after its last injection, and left this many visited states. After
    /// many rows their cost is judged.
    pub(crate) fn count_row(&mut self, steps: u32, visited: usize) {
        if self.phase > 0 {
            return;
        }
        let looks = (visited.min(MOST as usize) as u32).saturating_mul(COST_OF_A_LOOK);
        let cost = steps.saturating_add(looks).min(MOST);
        self.cost = self.cost.saturating_add(cost);
        self.rows = self.rows.saturating_add(1);
        if self.rows >= ROWS {
            self.judge();
            self.rows = 0;
            self.cost = 0;
        }
    }

    // From now on rows look as this plan says.
    fn follow(&mut self, plan: usize) {
        let Plan { halvings, eighths } = Plan::numbered(plan);
        self.plan = plan;
        self.steps = self.widest >> halvings.min(MOST_HALVINGS);
        self.delay = (self.widest / 8).saturating_mul(eighths);
    }

    // What rows cost that look in this way is known: takes the next, or the best.
    fn judge(&mut self) {
        if self.turns > 0 {
            self.turns -= 1;
            if self.turns == 0 {
                self.least = u32::MAX;
                self.follow(0);
            }
            return;
        }
        if self.cost < self.least {
            self.least = self.cost;
            self.best = self.plan;
        }
        let next = self.plan.saturating_add(1);
        if next < PLANS {
            self.follow(next);
        } else {
            self.follow(self.best);
            self.turns = TURNS;
            let counted = self.least.saturating_sub(FREE);
            self.room = (counted / COST_OF_A_STATE).clamp(FEWEST_STATES, MOST_STATES);
        }
    }
}
