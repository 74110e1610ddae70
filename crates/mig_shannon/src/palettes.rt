//! The colours in use, and what walks may cost.
ghost use Rattle.std.specs.Prelude.{◌≡◌, ◌+◌, ◌-◌, ◌*◌, ◌/◌, ◌%◌, ◌^◌, ◌<◌, ◌≤◌, ◌↔◌, IsTrue, min, max};
ghost use Rattle.mig_shannon.specs.Palettes.{step_after};

/// How many walks are tried for an edge in one pass, at first and at most.
const FEW_TRIES: u32 = 16;

const MOST_TRIES: u32 = 1024;

/// What walks that fail may cost in a whole run, in steps of walks.
const BUDGET: u64 = 1 << 26;

/// What they may cost between two improvements until the palette grows: so much for each colour, but at most so much in all;
/// and for each colour a little more, since a single one of them may be what helps.
const PATIENCE: u64 = 1 << 12;

const MOST_PATIENCE: u64 = 1 << 18;

const MORE_PATIENCE: u64 = 24;

/// The number from which others are drawn. Any does: plans by another one are as good, but not the same.
const SEED: u32 = 8839;

/// The colours in use, those below the palette's size.
#[derive(Drop)]
pub struct Palette {
    pub size: u32,
    /// By how many colours it grew last, and how many edges were left before that.
    step: u32,
    before: u32,
    nodes: u32,
}

impl Palette {
    /// A palette of the first colours, for a board of so many nodes.
    pub fn new(size: u32, nodes: u32) -> Palette
        ensures { result ≡ record { size = size; step = 0; before = 0; nodes = nodes } }
    {
        Palette {
            size,
            step: 0,
            before: 0,
            nodes,
        }
    }

    /// Grows, to `most` colours at most, where so many edges are left.
    ///
    /// The step is half of the colours that these edges seem to need, judged by what the last step brought. It is at
    /// most twice the last step, or half of the fewest colours that can do.
    pub fn grow(&mut self, left: u32, most: u32)
        ensures step { self.new.step ≡ step_after self.old.step self.old.before left self.old.nodes }
        ensures size { self.new.size ≡ min (self.old.size + self.new.step) (min most u32.MAX) }
        ensures before { self.new.before ≡ left }
        ensures nodes { self.new.nodes ≡ self.old.nodes }
    {
        let twice = self.step.saturating_mul(2).max(left / self.nodes.max(1));
        let fewer = self.before.saturating_sub(left);
        let step = if fewer == 0 {
            twice
        } else {
            let need = left as u64 * self.step as u64 / fewer as u64 / 2;
            need.min(twice as u64) as u32
        };
        self.step = step.max(1);
        self.before = left;
        self.size = self.size.saturating_add(self.step).min(most);
    }
}

/// What a run may still spend on walks, and the numbers that it draws, the same ones in each run.
#[derive(Drop)]
pub struct Effort {
    /// How many walks are tried for an edge in one pass.
    pub tries: u32,
    /// What one walk that fails costs, what was spent since the last improvement, and what is left.
    cost: u64,
    spent: u64,
    left: u64,
    /// What may be spent between two improvements.
    patience: u64,
    /// The fewest edges that a pass left, as of the last improvement.
    least: u32,
    state: u32,
}

impl Effort {
    /// The effort for a board of so many nodes and colours.
    pub fn new(nodes: u32, colours: u32) -> Effort
        ensures { result ≡ record { tries = FEW_TRIES; cost = 16 + nodes / 4; spent = 0; left = BUDGET; patience = min (colours * PATIENCE) MOST_PATIENCE + colours * MORE_PATIENCE; least = u32.MAX; state = SEED } }
    {
        Effort {
            tries: FEW_TRIES,
            cost: 16 + nodes as u64 / 4,
            spent: 0,
            left: BUDGET,
            patience: (colours as u64 * PATIENCE).min(MOST_PATIENCE)
                + colours as u64 * MORE_PATIENCE,
            least: u32::MAX,
            state: SEED,
        }
    }

    /// A number below n, or 0 where n is 0, and another one each time.
    pub fn draw(&mut self, n: u32) -> u32
        ensures value { result ≡ self.new.state / 256 % max n 1 }
        ensures others { self.new ≡ record self.old { state = (self.old.state * 1664525 + 1013904223) % 2 ^ 32 } }
    {
        self.state = ((self.state as u64 * 1664525 + 1013904223) % (1 << 32)) as u32;
        self.state / 256 % n.max(1)
    }

    /// Pays for a walk that failed.
    pub fn pay(&mut self)
        ensures { self.new ≡ record self.old { spent = min (self.old.spent + self.old.cost) u64.MAX; left = self.old.left - self.old.cost } }
    {
        self.spent = self.spent.saturating_add(self.cost);
        self.left = self.left.saturating_sub(self.cost);
    }

    /// Whether nothing is left.
    pub fn is_spent(&self) -> bool
        ensures { IsTrue result ↔ (self.now.left ≡ 0) }
    {
        self.left == 0
    }

    /// Whether a pass that left so many edges is an improvement: it left fewer than before by one in sixteen or more.
    pub fn is_better(&self, edges: u32) -> bool
        ensures { IsTrue result ↔ (edges + edges / 16 < self.now.least) }
    {
        edges as u64 + edges as u64 / 16 < self.least as u64
    }

    /// Whether walks have brought nothing for long, where so many edges are left: the fewer, the longer.
    pub fn is_stuck(&self, edges: u32) -> bool
        ensures { IsTrue result ↔ (self.now.patience ≤ self.now.spent * min edges 16) }
    {
        self.spent.saturating_mul(edges.min(16) as u64) >= self.patience
    }

    /// Tries one walk alone for each further edge of a pass, where walks have brought nothing for long.
    pub fn hurry(&mut self, edges: u32)
        ensures stuck { self.old.patience ≤ self.old.spent * min edges 16 → self.new ≡ record self.old { tries = 1 } }
        ensures going { self.old.spent * min edges 16 < self.old.patience → self.new ≡ self.old }
    {
        if self.is_stuck(edges) {
            self.tries = 1;
        }
    }

    /// Begins anew after a pass that left so many edges.
    pub fn begin(&mut self, edges: u32)
        ensures { self.new ≡ record self.old { tries = FEW_TRIES; spent = 0; least = edges } }
    {
        self.tries = FEW_TRIES;
        self.spent = 0;
        self.least = edges;
    }

    /// Tries twice as many walks in the next pass.
    pub fn deepen(&mut self)
        ensures { self.new ≡ record self.old { tries = min (2 * self.old.tries) MOST_TRIES } }
    {
        self.tries = self.tries.saturating_mul(2).min(MOST_TRIES);
    }
}
