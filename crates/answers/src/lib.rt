// What each call answers where nothing is refused (Spec 10.6).
#![tactic(auto)]

ghost use Rattle.std.specs.Prelude.{◌≡◌, [], ◌∷◌, ◌-◌, ◌≤◌};
ghost use Rattle.answers.specs.Answers.{counts_in};

// What is told of a chain, by compile, check, run and pool: its steps, those of them that are squarings, and its other products.
#[derive(Clone, Copy)]
pub struct Counts {
    pub steps: usize,
    pub squarings: usize,
    pub products: usize,
}

// The counts of so many steps, so many of them squarings.
pub fn counts_of(steps: usize, squarings: usize) -> Counts
    requires { squarings ≤ steps }
    ensures { counts_in result ≡ steps ∷ squarings ∷ (steps - squarings) ∷ [] }
{
    Counts {
        steps,
        squarings,
        products: steps - squarings,
    }
}

// The ceiling: how many steps the chain has, and the most that its method takes for such a sheet.
#[derive(Clone, Copy)]
pub struct Quote {
    pub count: usize,
    pub ceiling: usize,
}

// The extent: how many bits a number of the file has, and the bytes of the file.
#[derive(Clone, Copy)]
pub struct FileSize {
    pub width: usize,
    pub bytes: usize,
}

// Read: the chain's p and q, and its counts.
#[derive(Clone, Copy)]
pub struct ReadChain {
    pub p: usize,
    pub q: usize,
    pub counts: Counts,
}

// The chooser: the file chosen.
#[derive(Clone, Copy, PartialEq, Eq)]
pub enum Chosen {
    First,
    Second,
}

// The whole path: the steps that compile and read return and the multiplications made.
#[derive(Clone, Copy)]
pub struct Figures {
    pub compiled: usize,
    pub read: usize,
    pub made: usize,
}
