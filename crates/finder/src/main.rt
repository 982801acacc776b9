// Runs sheet L of document 01's panel cases and then uses the record finder as a caller of the library does: for some frames and settings
// it prints the record of three numbers that is handed back, or that there is none. Then the same on a wide sheet, whose records have five.
#![tactic(auto)]

use form::Form;
use records::Counts;
use std::io;

// Ten frames; variables 0 and 1 are open.
const SHEET: [u8; 40] = [
    1, 0, 0, 0, 1, 2, 0, 0, 3, 0, 1, 0, 2, 0, 0, 0, 2, 1, 0, 0, 3, 3, 4, 0, 4, 2, 5, 0, 5, 6, 2, 1,
    1, 1, 0, 0, 3, 7, 8, 0,
];

// ASK, which is a yes; ENTER variable 1 as 0; ASK, which is a no.
const SCRIPT: [u8; 12] = [0x13, 0, 0, 0, 0x10, 1, 0, 0, 0x13, 0, 0, 0];

// The same frames with seven bytes each, and variable 33 for 1, so that a mask has a high half.
const WIDE_SHEET: [u8; 70] = [
    1, 0, 0, 0, 0, 0, 0, 1, 0, 2, 0, 0, 0, 0, 3, 0, 0, 0, 1, 0, 0, 2, 0, 0, 0, 0, 0, 0, 2, 0, 1, 0,
    0, 0, 0, 3, 0, 3, 0, 4, 0, 0, 4, 0, 2, 0, 5, 0, 0, 5, 0, 6, 0, 2, 0, 1, 1, 0, 33, 0, 0, 0, 0,
    3, 0, 7, 0, 8, 0, 0,
];

// ASK, which is a yes; ENTER variable 33 as 0; ASK, which is a no.
const WIDE_SCRIPT: [u8; 12] = [0x13, 0, 0, 0, 0x10, 33, 0, 0, 0x13, 0, 0, 0];

// Tables of ten records.
const TABLE_NUMBERS: usize = 30;

const WIDE_NUMBERS: usize = 50;

// A refused run keeps no record.
const NONE: Counts = Counts { under: 0, over: 0 };

// Two tables that a run has left, and how many records of each count.
#[derive(Clone, Copy)]
struct Tables<'a> {
    form: Form,
    under: &'a [u32],
    over: &'a [u32],
    kept: Counts,
}

// A part that the finder handed back: frame, mask, values; or the empty part. In a wide record each word's low half stands before its high one.
fn say_part(rt: &impl Print, part: &[u32]) -> io::Result<()> {
    match part {
        [frame, mask, values] => println!(rt; " frame {frame} mask {mask:08x} values {values:08x}"),
        [frame, mask_low, mask_high, low, high] => println!(rt;
            " frame {frame} mask {mask_high:08x}{mask_low:08x} values {high:08x}{low:08x}"
        ),
        _ => println!(rt; " no record"),
    }
}

impl Tables<'_> {
    // The first record of the frame that agrees with the setting.
    fn look_up(self, rt: &impl Print, frame: u32, setting: u64) -> io::Result<()> {
        match self.form {
            Form::Narrow => print!(rt; "frame {frame} setting {setting:08x}:")?,
            Form::Wide => print!(rt; "frame {frame} setting {setting:016x}:")?,
        }
        say_part(
            rt,
            records::find(
                self.form,
                self.under,
                self.kept.under,
                self.over,
                self.kept.over,
                frame,
                setting,
            ),
        )
    }

    fn look_up_each(self, rt: &impl Print, asked: &[(u32, u64)]) -> io::Result<()> {
        for &(frame, setting) in asked {
            self.look_up(rt, frame, setting)?;
        }
        Ok(())
    }
}

fn say_counts(rt: &impl Print, kept: Counts) -> io::Result<()> {
    println!(rt; "records: under {}, over {}", kept.under, kept.over)
}

fn narrow(rt: &impl Print) -> io::Result<()> {
    let mut answers = [0u8; 18];
    let mut under = [0u32; TABLE_NUMBERS];
    let mut over = [0u32; TABLE_NUMBERS];
    let kept = run::run(
        &SHEET,
        Form::Narrow,
        &SCRIPT,
        &mut answers,
        &mut under,
        &mut over,
    )
    .unwrap_or(NONE);
    let tables = Tables {
        form: Form::Narrow,
        under: &under,
        over: &over,
        kept,
    };
    say_counts(rt, kept)?;
    println!(rt; "both tables")?;
    tables.look_up_each(rt, &[(9, 2), (9, 0), (7, 0), (7, 1), (8, 2)])?;
    println!(rt; "the under table alone")?;
    let alone = Tables {
        kept: Counts { over: 0, ..kept },
        ..tables
    };
    alone.look_up_each(rt, &[(9, 2), (9, 0)])?;
    println!(rt; "the over table alone")?;
    let alone = Tables {
        kept: Counts { under: 0, ..kept },
        ..tables
    };
    alone.look_up_each(rt, &[(9, 2), (9, 0)])?;
    println!(rt; "a count over its table's room")?;
    let past_room = Tables {
        kept: Counts { under: 11, ..kept },
        ..tables
    };
    past_room.look_up(rt, 9, 0)
}

fn wide(rt: &impl Print) -> io::Result<()> {
    let mut answers = [0u8; 30];
    let mut under = [0u32; WIDE_NUMBERS];
    let mut over = [0u32; WIDE_NUMBERS];
    let kept = run::run(
        &WIDE_SHEET,
        Form::Wide,
        &WIDE_SCRIPT,
        &mut answers,
        &mut under,
        &mut over,
    )
    .unwrap_or(NONE);
    let tables = Tables {
        form: Form::Wide,
        under: &under,
        over: &over,
        kept,
    };
    println!(rt; "a wide sheet")?;
    say_counts(rt, kept)?;
    tables.look_up_each(rt, &[(9, 0x200000000), (9, 0), (9, 2), (7, 0), (7, 1)])?;
    println!(rt; "a count over its table's room")?;
    let past_room = Tables {
        kept: Counts { under: 11, ..kept },
        ..tables
    };
    past_room.look_up(rt, 9, 0)
}

fn main(rt: HostRuntime) -> io::Result<()> {
    narrow(&rt)?;
    wide(&rt)
}
