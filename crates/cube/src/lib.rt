// A cube: the variables that are fixed, and their values. `Cube` is document 01's, of 32 variables; `Cube64` has 64, as records, the search and a
// session use it.
#![tactic(auto)]

ghost use Rattle.std.specs.Prelude.{◌≡◌, true};
ghost use Rattle.words.specs.Mask.{agree};
ghost use Rattle.cube.specs.Cube.{Fixed, Freed, FreedAll, Made};

use words::Word;

// A cube whose variables are the places of a word.
#[derive(Clone, Copy)]
pub struct CubeOf<W> {
    pub mask: W,
    pub values: W,
}

pub type Cube = CubeOf<u32>;

pub type Cube64 = CubeOf<u64>;

// A constant of the generic impl would have no value that a proof can see, so each type has its own.
impl Cube {
    // Fixes nothing.
    pub const UNFIXED: Cube = Cube { mask: 0, values: 0 };
}

impl Cube64 {
    // Fixes nothing.
    pub const UNFIXED: Cube64 = Cube64 { mask: 0, values: 0 };
}

impl<W: Word> CubeOf<W> {
    // The cube that fixes the mask's variables at their values in the word; values outside the mask are dropped.
    pub fn of(mask: W, values: W) -> CubeOf<W>
        ensures { Made (W.number mask) (W.number values) (W.number result.mask) (W.number result.values) }
    {
        CubeOf {
            mask,
            values: values & mask,
        }
    }

    // The same cube with the variable fixed at the value, which replaces an old one; unchanged past the last variable.
    pub fn fix(self, variable: u8, value: bool) -> CubeOf<W>
        ensures { Fixed W.PLACES (W.number self.mask) (W.number self.values) variable value (W.number result.mask) (W.number result.values) }
    {
        CubeOf {
            mask: self.mask.place(variable, true),
            values: self.values.place(variable, value),
        }
    }

    // The same cube with the variable not fixed; unchanged past the last variable.
    pub fn free(self, variable: u8) -> CubeOf<W>
        ensures { Freed W.PLACES (W.number self.mask) (W.number self.values) variable (W.number result.mask) (W.number result.values) }
    {
        CubeOf {
            mask: self.mask.place(variable, false),
            values: self.values.place(variable, false),
        }
    }

    // The same cube with none of the word's variables fixed.
    pub fn free_all(self, variables: W) -> CubeOf<W>
        ensures { FreedAll (W.number self.mask) (W.number self.values) (W.number variables) (W.number result.mask) (W.number result.values) }
    {
        CubeOf {
            mask: self.mask.without(variables),
            values: self.values.without(variables),
        }
    }

    // Whether the setting's bits in the mask are exactly the values.
    pub fn agrees(self, setting: W) -> bool
        ensures { result ≡ agree (W.number self.mask) (W.number self.values) (W.number setting) }
    {
        setting.agrees(self.mask, self.values)
    }
}

// `UNFIXED` agrees with every setting, of 32 variables and of 64: two functions, since there are two constants.
fn unfixed_agrees(setting: u32) -> bool
    ensures { result ≡ true }
{
    Cube::UNFIXED.agrees(setting)
}

fn unfixed_agrees64(setting: u64) -> bool
    ensures { result ≡ true }
{
    Cube64::UNFIXED.agrees(setting)
}
