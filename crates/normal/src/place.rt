// Frames that are written each once, and the place of a frame among them.
ghost use Rattle.std.specs.Prelude.{◌≡◌, ◌≢◌, ◌≤◌, ◌<◌, length, MatchOption};
ghost use Rattle.std.specs.List.{AllWithin, HoldsAt};
ghost use Rattle.normal.specs.Visit.{first_place, Behind, Puts};

use sheet::Kind;

// The number of the frame that is the same, if there is one.
fn find(kinds: &[Kind], kind: Kind) -> Option<usize>
    ensures { MatchOption result (AllWithin (λ k. k ≢ kind) kinds.now 0 (length kinds.now)) (λ i. (i < length kinds.now) × HoldsAt (λ k. k ≡ kind) kinds.now i × AllWithin (λ k. k ≢ kind) kinds.now 0 i) }
{
    kinds.iter().position(|k| *k == kind)
}

// The first place that a frame can have: behind the frames that it names. So most searches are short.
fn first_place(kind: Kind) -> usize
    ensures { result ≡ first_place kind }
{
    match kind {
        Kind::Never | Kind::Input(_) | Kind::Gauge(_) => 0,
        Kind::Not(a) | Kind::Exists(a, _, _) | Kind::Forall(a, _, _) => usize::from(a) + 1,
        Kind::And(a, b) | Kind::Or(a, b) => usize::from(a.max(b)) + 1,
    }
}

// The frames written so far, in room that is fixed, as there is no heap: the first `count` of `kinds`.
#[derive(Drop)]
pub struct Frames<const N: usize> {
    pub kinds: [Kind; N],
    pub count: usize,
}

impl<const N: usize> Frames<N> {
    // The number of the frame that is there, or else of this one, put behind the others.
    pub fn put(&mut self, kind: Kind) -> usize
        requires { (self.old.count < N) × Behind self.old.kinds self.old.count × (first_place kind ≤ self.old.count) }
        ensures { Puts self.old.kinds self.old.count kind self.new.kinds result self.new.count }
    {
        let first = first_place(kind);
        let written = &self.kinds[..self.count];
        if let Some(behind) = find(&written[first..], kind) {
            return first + behind;
        }
        let number = self.count;
        self.kinds[number] = kind;
        self.count += 1;
        number
    }
}
