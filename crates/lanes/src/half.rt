// A word of lanes at one of its six positions.
ghost use Rattle.std.specs.Prelude.{◌≡◌, ◌^◌, ◌<◌};
ghost use Rattle.lanes.specs.Pattern as Pattern;
ghost use Rattle.lanes.specs.Pattern.{Half, part, copied};
ghost use Rattle.lanes.specs.Lanes.{place};

// The lanes whose bit p is 0.
#[tactic(auto, unfolding(crate::specs::Pattern::low))]
pub fn low(p: u8) -> u64
    requires { p < 6 }
    ensures { result ≡ Pattern.low p }
{
    match p {
        0 => 6148914691236517205,
        1 => 3689348814741910323,
        2 => 1085102592571150095,
        3 => 71777214294589695,
        4 => 281470681808895,
        _ => 4294967295,
    }
}

// How far apart two lanes are that differ in position p.
fn stride(p: u8) -> u8
    requires { p < 6 }
    ensures { (result ≡ 2 ^ p) × (result < 64) }
{
    1u8 << p
}

// The lanes of t where position p is 0 or, for b, 1; moved to those where it is 0.
#[tactic(auto, unfolding(crate::specs::Pattern::part))]
fn one_part(t: u64, p: u8, b: bool) -> u64
    requires { p < 6 }
    ensures { result ≡ part t p b }
{
    let m = low(p);
    if b {
        let s = stride(p);
        return (t >> s) & m;
    }
    t & m
}

#[tactic(auto, unfolding(crate::specs::Pattern::copied))]
fn copy_up(h: u64, p: u8) -> u64
    requires { p < 6 }
    ensures { result ≡ copied h p }
{
    let s = stride(p);
    h | (h << s)
}

// t with position p at b in every lane.
pub fn half(t: u64, p: u8, b: bool) -> u64
    requires { p < 6 }
    ensures { Half t p b result }
{
    copy_up(one_part(t, p, b), p)
}

// The position of a variable.
pub fn place_of(places: &[u8; 64], variable: u8) -> u8
    requires { variable < 64 }
    ensures { place places.now variable ≡ result }
{
    places[usize::from(variable)]
}
