// Tables of records, each a frame, a mask of variables and their values: of three numbers for narrow sheets, of five for wide ones.
#![tactic(auto)]

mod layout;

ghost use Rattle.std.specs.Prelude.{◌≡◌, ◌<◌, ◌≤◌, length};
ghost use Rattle.words.specs.Mask.{agree};
ghost use Rattle.form.specs.Form as Sizes;
ghost use Rattle.form.specs.Form.{record_start, word_end};
ghost use Rattle.records.specs.Table.{matches, mask_at};
ghost use Rattle.records.specs.Put.{Put};
ghost use Rattle.records.specs.Search.{Finds};
ghost use Rattle.records.specs.Find.{hit, Part};

use cube::Cube64;
use form::Form;
use layout::{Record, part_at, record_at, write};
use words::Word;

// How many records of the under table count, and how many of the over table.
#[derive(Clone, Copy)]
pub struct Counts {
    pub under: usize,
    pub over: usize,
}

// In which of two tables a record stands, and at which index.
#[derive(Clone, Copy)]
pub enum Hit {
    Under(usize),
    Over(usize),
}

// Whether a record's cube agrees with the setting. The maker would drop values outside the mask, with which nothing agrees.
fn record_agrees(mask: u64, values: u64, setting: u64) -> bool
    ensures { result ≡ agree mask values setting }
{
    values.inside(mask) && Cube64::of(mask, values).agrees(setting)
}

// Whether record j is one of this frame, assigns assigned variables only, and agrees with the setting.
#[tactic(auto, unfolding(crate::specs::Table::matches))]
fn matches_at(table: &[u32], form: Form, j: usize, frame: u32, assigned: u64, setting: u64) -> bool
    requires { j < Sizes.room form (length table.now) }
    ensures { result ≡ matches form table.now frame assigned setting j }
{
    let r = record_at(table, form, j);
    r.frame == frame && r.mask.inside(assigned) && record_agrees(r.mask, r.values, setting)
}

// The first of the counted records that matches (for the solver).
pub fn search(
    table: &[u32],
    form: Form,
    count: usize,
    frame: u32,
    assigned: u64,
    setting: u64,
) -> Option<usize>
    requires { record_start form count ≤ length table.now }
    ensures { Finds form table.now count frame assigned setting result }
{
    for j in 0..count {
        if matches_at(table, form, j, frame, assigned, setting) {
            return Some(j);
        }
    }
    None
}

// The mask of a record (for the solver).
pub fn mask_of(table: &[u32], form: Form, at: usize) -> u64
    requires { at < Sizes.room form (length table.now) }
    ensures { result ≡ mask_at form table.now at }
{
    record_at(table, form, at).mask
}

// Puts a record behind the counted ones and tells how many there are then: a full table takes no more (for the solver).
pub fn put(table: &mut [u32], form: Form, count: usize, frame: u32, mask: u64, values: u64) -> usize
    requires { (record_start form count ≤ length table.old) × (mask < word_end form) × (values < word_end form) }
    ensures { Put form table.old count table.new result frame mask values }
{
    if count < form::room(form, table.len()) {
        let record = Record {
            frame,
            mask,
            values,
        };
        write(table, form, count, record);
        return count + 1;
    }
    count
}

// Where a record of the frame agrees with the setting: the under table first. Nowhere, if a count exceeds its table's room.
fn locate(
    form: Form,
    under: &[u32],
    under_count: usize,
    over: &[u32],
    over_count: usize,
    frame: u32,
    setting: u64,
) -> Option<Hit>
    ensures { result ≡ hit form under.now under_count over.now over_count frame setting }
{
    if under_count > form::room(form, under.len()) {
        return None;
    }
    if over_count > form::room(form, over.len()) {
        return None;
    }
    if let Some(j) = search(under, form, under_count, frame, u64::MAX, setting) {
        return Some(Hit::Under(j));
    }
    let j = search(over, form, over_count, frame, u64::MAX, setting)?;
    Some(Hit::Over(j))
}

// The record finder: the numbers of the first record of the frame that agrees with the setting, three in tables of a narrow sheet and five in those of
// a wide one, a part of the under table or else of the over table; the empty part at the under table's start, if there is none or a count exceeds its table's room.
pub fn find<'a>(
    form: Form,
    under: &'a [u32],
    under_count: usize,
    over: &'a [u32],
    over_count: usize,
    frame: u32,
    setting: u64,
) -> &'a [u32]
    ensures { Part form under.entry over.entry result (hit form under.now under_count over.now over_count frame setting) }
{
    match locate(form, under, under_count, over, over_count, frame, setting) {
        Some(Hit::Under(j)) => part_at(under, form, j),
        Some(Hit::Over(j)) => part_at(over, form, j),
        None => &under[0..0],
    }
}
