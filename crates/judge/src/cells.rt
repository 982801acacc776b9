// The scratch of a search: two words a node. The first has the node's value and the node that was set before it, the second the value's reason; both are
// 0 where nothing is known. So the nodes set since a mark are a chain through the cells, which `undo` follows back.
ghost use Rattle.std.specs.Prelude.{◌≡◌, true, List, ℕ, ◌+◌, ◌*◌, ◌<◌, length, set};
ghost use Rattle.judge.specs.Cells.{HasCell, Vacant, value_of, reason_of, Stored, Trail, previous, cleared};

// The head of an empty chain of set cells.
pub const END: u16 = 65535;

// What is known of a node: 0 nothing, 1 false, 2 true; and the variables that force the value. A number and no Option of a truth, since `known_at`
// tells the two words of a cell whatever they are, the reason of what is not known too.
#[derive(Clone, Copy)]
pub struct Known {
    pub value: u8,
    pub reason: u64,
}

pub const NOTHING: Known = Known {
    value: 0,
    reason: 0,
};

pub fn known_at(cells: &[u64], k: usize) -> Known
    requires { HasCell cells.now k }
    ensures { (result.value ≡ value_of cells.now k) × (result.reason ≡ reason_of cells.now k) × (result.value < 4) }
{
    let at = 2 * k;
    Known {
        value: (cells[at] % 4) as u8,
        reason: cells[at + 1],
    }
}

// Whether nothing is known of node k.
pub fn vacant(cells: &[u64], k: usize) -> bool
    requires { HasCell cells.now k }
    ensures { result ≡ true → Vacant cells.now k }
{
    let at = 2 * k;
    cells[at] == 0 && cells[at + 1] == 0
}

// Node k is set, and its cell is the first of the chain.
pub fn put(cells: &mut [u64], k: usize, known: Known, head: u16) -> u16
    requires { HasCell cells.old k × (k < 65535) × (known.value < 3) }
    ensures { Stored k known.value known.reason head cells.old cells.new result }
{
    let at = 2 * k;
    cells[at] = 4 * u64::from(head) + u64::from(known.value);
    cells[at + 1] = known.reason;
    k as u16
}

// Nothing is known of node k any more. The answer is the node that was set before it.
pub fn unset(cells: &mut [u64], k: usize) -> u16
    requires { HasCell cells.old k }
    ensures { (cells.new ≡ cleared cells.old k) × (result ≡ previous cells.old k) }
{
    let at = 2 * k;
    let before = (cells[at] / 4 % 65536) as u16;
    cells[at] = 0;
    cells[at + 1] = 0;
    before
}

// The cells of the chain are set back, so that nothing is known of their nodes.
pub fn undo(cells: &mut [u64], head: u16)
    requires { (old : List ℕ) × Trail old cells.old head }
    ensures { (old : List ℕ) → Trail old cells.old head → cells.new ≡ old }
{
    let mut at = head;
    while at != END {
        at = unset(cells, usize::from(at));
    }
}
