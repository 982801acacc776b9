// The numbers of a record in a table, three or five: the only place that knows where they stand.
ghost use Rattle.std.specs.Prelude.{◌≡◌, [], ◌∷◌, ◌+◌, ◌*◌, ◌/◌, ◌%◌, ◌<◌, ◌≤◌, length};
ghost use Rattle.std.proofs.lemmas.List.Edits.{sets};
ghost use Rattle.form.specs.Form as Sizes;
ghost use Rattle.records.specs.Layout.{stored, Reads};
ghost use Rattle.records.specs.Find.{Holding};

use form::Form;

// A record as the search sees it, in either form.
#[derive(Clone, Copy)]
pub struct Record {
    pub frame: u32,
    pub mask: u64,
    pub values: u64,
}

// A word of two halves.
fn join(low: u32, high: u32) -> u64
    ensures { result ≡ low + high * 4294967296 }
{
    u64::from(low) + u64::from(high) * 4294967296
}

// The lower and the higher half of a word.
fn low(x: u64) -> u32
    ensures { result ≡ x % 4294967296 }
{
    (x % 4294967296) as u32
}

fn high(x: u64) -> u32
    ensures { result ≡ x / 4294967296 }
{
    (x / 4294967296) as u32
}

// Record j of a table: a frame, a mask and values, of which a wide one has each as a low half and a high one.
pub fn record_at(table: &[u32], form: Form, j: usize) -> Record
    requires { j < Sizes.room form (length table.now) }
    ensures { Reads form table.now j result.frame result.mask result.values }
{
    match form {
        Form::Narrow => {
            let p = j * 3;
            Record {
                frame: table[p],
                mask: u64::from(table[p + 1]),
                values: u64::from(table[p + 2]),
            }
        }
        Form::Wide => {
            let p = j * 5;
            Record {
                frame: table[p],
                mask: join(table[p + 1], table[p + 2]),
                values: join(table[p + 3], table[p + 4]),
            }
        }
    }
}

// Writes record j of a table.
pub fn write(table: &mut [u32], form: Form, j: usize, r: Record)
    requires { j < Sizes.room form (length table.old) }
    ensures { table.new ≡ stored form table.old j r.frame r.mask r.values }
{
    match form {
        Form::Narrow => {
            let numbers = [r.frame, low(r.mask), low(r.values)];
            table[j * 3..j * 3 + 3].copy_from_slice(&numbers);
        }
        Form::Wide => {
            let numbers = [
                r.frame,
                low(r.mask),
                high(r.mask),
                low(r.values),
                high(r.values),
            ];
            table[j * 5..j * 5 + 5].copy_from_slice(&numbers);
        }
    }
}

// The part of a table that holds record j.
pub fn part_at<'a>(table: &'a [u32], form: Form, j: usize) -> &'a [u32]
    requires { j < Sizes.room form (length table.now) }
    ensures { Holding form table.entry result j }
{
    match form {
        Form::Narrow => &table[j * 3..j * 3 + 3],
        Form::Wide => &table[j * 5..j * 5 + 5],
    }
}
