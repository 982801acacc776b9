// A kind whose variables are the form's: the words of those that it binds and names, and how they meet the ones of earlier frames.
ghost use Rattle.std.specs.Prelude.{◌≡◌, false, ◌+◌, ◌^◌, ◌<◌, ◌≤◌};
ghost use Rattle.words.specs.Mask.{range_mask};
ghost use Rattle.sheet.specs.Rules as Rules;
ghost use Rattle.sheet.specs.Check.{bound_mask, input_mask, gauge_mask, past_by, seen_after};

use crate::Kind;
use crate::rules::Seen;
use form::Form;
use words::Word;

// The c places from b on.
pub fn range_word(b: u16, c: u16) -> u64
    requires { b + c ≤ 64 }
    ensures { result ≡ range_mask b c }
{
    u64::range_mask(b as u8, c as u8)
}

// The place x alone.
pub fn input_word(x: u16) -> u64
    requires { x < 64 }
    ensures { result ≡ 2 ^ x }
{
    u64::one(x as u8)
}

// A kind whose variables are those of a sheet of the form.
#[derive(Clone, Copy)]
pub struct Ranged {
    pub form: Form,
    pub kind: Kind,
    ghost ranged: { Rules.bad_variables form kind ≡ false },
}

impl Ranged {
    // The variables that a frame of this kind binds.
    #[tactic(auto, unfolding(crate::specs::Rules::bad_variables, crate::specs::Check::bound_mask))]
    fn bound(self) -> u64
        ensures { result ≡ bound_mask self.kind }
    {
        match self.kind {
            Kind::Exists(_, b, c) | Kind::Forall(_, b, c) => range_word(b, c),
            _ => 0,
        }
    }

    // Those that it names by an INPUT.
    #[tactic(auto, unfolding(crate::specs::Rules::bad_variables, crate::specs::Check::input_mask))]
    fn inputs(self) -> u64
        ensures { result ≡ input_mask self.kind }
    {
        match self.kind {
            Kind::Input(x) => input_word(x),
            _ => 0,
        }
    }

    // Those that it names as gauges.
    #[tactic(auto, unfolding(crate::specs::Rules::bad_variables, crate::specs::Check::gauge_mask))]
    fn gauges(self) -> u64
        ensures { result ≡ gauge_mask self.kind }
    {
        match self.kind {
            Kind::Gauge(x) => input_word(x),
            _ => 0,
        }
    }

    // What is seen behind this frame.
    pub fn seen_after(self, seen: Seen) -> Seen
        ensures { result ≡ seen_after seen self.kind }
    {
        Seen {
            bound: seen.bound | self.bound(),
            inputs: seen.inputs | self.inputs(),
            gauges: seen.gauges | self.gauges(),
        }
    }

    // Whether it names by an INPUT what was named as a gauge, or the other way round.
    pub fn named_both(self, seen: Seen) -> bool
        ensures { result ≡ Rules.named_both self.form self.kind (past_by seen) }
    {
        self.inputs() & seen.gauges != 0 || self.gauges() & seen.inputs != 0
    }

    // Whether it binds what was named as a gauge, or the other way round.
    pub fn binds_gauge(self, seen: Seen) -> bool
        ensures { result ≡ Rules.binds_gauge self.form self.kind (past_by seen) }
    {
        self.bound() & seen.gauges != 0 || self.gauges() & seen.bound != 0
    }

    // Whether it binds what was bound.
    pub fn binds_again(self, seen: Seen) -> bool
        ensures { result ≡ Rules.meet self.form (Rules.binds self.kind) (past_by seen).bound }
    {
        self.bound() & seen.bound != 0
    }
}
